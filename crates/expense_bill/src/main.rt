// Prints the bill of the month's expense whose file stands on standard input.
#![tactic(auto)]

use expense_text::file::bill_of_file;
use expense_text::refusal::refusal_row;
use rules::sharing::LargestRemainder;
use std::io;
use std::io::{Read, Write};

// One byte more than a file may have, so that a longer one is seen to be longer.
fn read_input(rt: &HostRuntime) -> io::Result<Vec<u8>> {
    let mut input = Vec::new(rt.alloc());
    rt.stdin().take(65_537).read_to_end(&mut input)?;
    Ok(input)
}

fn main(rt: HostRuntime) -> io::Result<()> {
    let input = read_input(&rt)?;
    let page = bill_of_file(rt.alloc(), &LargestRemainder, &input).or_else(|fault| refusal_row(
        rt.alloc(),
        &fault,
    ))?;
    // In one write, so that a pipe takes the page whole.
    rt.stdout().write_all(page.as_bytes())
}
