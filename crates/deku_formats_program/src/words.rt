//! The words that the program knows.

ghost use Rattle.std.specs.Prelude.{◌≡◌, ◌∷◌, [], MatchOption};
ghost use Rattle.deku_program.specs.Texts.{words_of};
ghost use Rattle.deku_formats_program.specs.declared.words.Format.{Format as KnownFormat};
ghost use Rattle.deku_formats_program.specs.Forms.{name_of, AreNoForm, AskFor};

/// A format whose records the program knows.
#[derive(Clone, Copy)]
pub enum Format {
    /// The signals of a CAN data frame.
    Can,
    /// A space packet of telemetry.
    Ccsds,
    /// A question of the domain name system.
    Dns,
    /// The file header of an ELF64 file.
    Elf,
    /// The header of an IPv4 packet.
    Ipv4,
    /// The beginning of a PNG file.
    Png,
    /// An instruction word of RV32I.
    Riscv,
    /// The header of a UDP datagram.
    Udp,
}

/// What the words ask for.
#[derive(Clone, Copy)]
pub enum Asked {
    /// The names of the formats.
    Names,
    /// How to use the program.
    Help,
    /// A record of this format.
    Record(Format),
}

/// The format with this name. `None` if there is no such format.
pub fn format_named(name: &str) -> Option<Format>
    ensures { MatchOption result ((f : KnownFormat) → name.now ≡ name_of f → ⊥)
        (λ f. name.now ≡ name_of f) }
{
    match name {
        "can" => Some(Format::Can),
        "ccsds" => Some(Format::Ccsds),
        "dns" => Some(Format::Dns),
        "elf" => Some(Format::Elf),
        "ipv4" => Some(Format::Ipv4),
        "png" => Some(Format::Png),
        "riscv" => Some(Format::Riscv),
        "udp" => Some(Format::Udp),
        _ => None,
    }
}

/// What the words ask for. `None` if they are not of a form that the program knows.
pub fn parse_words(words: &[String]) -> Option<Asked>
    ensures { MatchOption result (AreNoForm (words_of words.now)) (AskFor (words_of words.now)) }
{
    match words {
        [] => Some(Asked::Names),
        [word] => one_word(word.as_str()),
        _ => None,
    }
}

// What one word asks for.
fn one_word(word: &str) -> Option<Asked>
    ensures { MatchOption result (AreNoForm (word.now ∷ [])) (AskFor (word.now ∷ [])) }
{
    if word == "--help" {
        return Some(Asked::Help);
    }
    match format_named(word) {
        Some(format) => Some(Asked::Record(format)),
        None => None,
    }
}
