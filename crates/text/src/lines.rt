// Lines of a text. Only the line feed ends a line.
ghost use Rattle.std.specs.Option.{MatchOption};
ghost use Rattle.text.specs.Lines.{NoLineFeed, FirstLine};

// The first line and what follows its line feed; none where no line feed is left.
pub fn split_line(input: &[u8]) -> Option<(&[u8], &[u8])>
    ensures { MatchOption result (NoLineFeed input.now) (λ p. FirstLine input.now p.0.now p.1.now) }
{
    let end = input.iter().position(|byte| *byte == b'\n')?;
    Some((&input[..end], &input[end + 1..]))
}
