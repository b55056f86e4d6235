// The lines of the output.
use crate::answers::Answer;
use itoa::{Buffer, Integer};
use page::Page;
use std::io::Write;

fn decimal(page: &mut Page<impl Write>, n: impl Integer) {
    page.text(Buffer::new().format(n).as_bytes());
}

fn values(page: &mut Page<impl Write>, values: &[impl Integer]) {
    for n in values {
        page.put(b' ');
        decimal(page, *n);
    }
}

// The line of an answer: its number, then on 0 the out numbers, with 12 and 13 the numbers named in the word.
pub fn told(page: &mut Page<impl Write>, answer: &Answer) {
    let [number, first, second, _] = answer.word.to_le_bytes();
    decimal(page, number);
    match number {
        0 => values(page, &answer.values[..answer.count]),
        12 => values(page, &[first]),
        13 => values(page, &[first, second]),
        _ => {}
    }
    page.put(b'\n');
}

// The line for what is no query.
pub fn unknown(page: &mut Page<impl Write>) {
    page.text(b"?\n");
}
