// How the layer of an entry is printed.
#[derive(Clone, Copy)]
pub enum Show {
    Sums,
    Pixels,
    Alphas,
    Nothing,
}

impl From<u8> for Show {
    fn from(letter: u8) -> Show {
        match letter {
            b's' => Show::Sums,
            b'x' => Show::Pixels,
            b'a' => Show::Alphas,
            _ => Show::Nothing,
        }
    }
}
