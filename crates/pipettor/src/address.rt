// Addresses.
ghost use Rattle.std.specs.Prelude.{◌≡◌};
ghost use Rattle.pipettor.specs.Address.{letter_of, address_of};

#[derive(Clone, Copy)]
pub enum Address {
    One,
    Two,
    Three,
    Four,
    Five,
    Six,
    Seven,
    Eight,
    Nine,
}

// The number is no address.
#[derive(Clone, Copy)]
pub struct S2;

impl TryFrom<u32> for Address {
    type Error = S2;

    #[tactic(auto, unfolding(crate::specs::Address::address_of))]
    fn try_from(n: u32) -> Result<Address, S2>
        ensures { result ≡ address_of n }
    {
        match n {
            1 => Ok(Address::One),
            2 => Ok(Address::Two),
            3 => Ok(Address::Three),
            4 => Ok(Address::Four),
            5 => Ok(Address::Five),
            6 => Ok(Address::Six),
            7 => Ok(Address::Seven),
            8 => Ok(Address::Eight),
            9 => Ok(Address::Nine),
            _ => Err(S2),
        }
    }
}

impl Address {
    // Its character on the line.
    pub fn letter(self) -> u8
        ensures { result ≡ letter_of self }
    {
        match self {
            Address::One => b'1',
            Address::Two => b'2',
            Address::Three => b'3',
            Address::Four => b'4',
            Address::Five => b'5',
            Address::Six => b'6',
            Address::Seven => b'7',
            Address::Eight => b'8',
            Address::Nine => b'9',
        }
    }
}
