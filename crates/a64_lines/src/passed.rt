//! Lines that begin with certain words.

ghost use Rattle.std.specs.Prelude.{◌≡◌, map, nat_eq};
ghost use Rattle.std.specs.List.{starts_with};
ghost use Rattle.std.specs.Bool.{Decides};
ghost use Rattle.a64_lines.specs.Entries.{BeginsWith};

/// Whether a line begins with one of these words.
pub fn begins_with_any(line: &[u8], words: &[&'static [u8]]) -> bool
    ensures { Decides result (BeginsWith line.now (map (λ word. word.now) words.now)) }
{
    words.iter().any(
        |word: &&[u8]| -> bool
            ensures { result ≡ starts_with nat_eq line.entry.now word.now.now }
        { line.starts_with(word) },
    )
}
