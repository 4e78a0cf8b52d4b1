// The first words of lines.
ghost use Rattle.std.specs.Prelude.{◌≡◌};
ghost use Rattle.house.specs.Lines.{keyword_of};

#[derive(Clone, Copy)]
pub(crate) enum Keyword {
    Area,
    Meter,
    Fault,
    Retry,
    Places,
    Search,
    Pick,
    Fetch,
    Release,
}

impl Keyword {
    #[tactic(auto, using(crate::proofs::Naming::places_word))]
    pub(crate) fn read(word: &[u8]) -> Option<Keyword>
        ensures { result ≡ keyword_of word.now }
    {
        match word {
            b"area" => Some(Keyword::Area),
            b"meter" => Some(Keyword::Meter),
            b"fault" => Some(Keyword::Fault),
            b"retry" => Some(Keyword::Retry),
            b"places" => Some(Keyword::Places),
            b"s" => Some(Keyword::Search),
            b"p" => Some(Keyword::Pick),
            b"f" => Some(Keyword::Fetch),
            b"r" => Some(Keyword::Release),
            _ => None,
        }
    }
}
