// The output in the format of the command line of reference/.
use shake::Sponge;
use spec::Answer;
use std::io;
use test_support::parts::front;
use test_support::print::Hex;

// 32 bytes of SHAKE128.
fn digest(a: &[u8]) -> [u8; 32] {
    let mut out = [0u8; 32];
    Sponge::new(168).absorb(a).squeeze(&mut out);
    out
}

// The number and the node count of an answer.
pub fn print_answer(rt: &impl Print, r: Answer) -> io::Result<()> {
    println!(rt; "number {}\ncount {}", r.number, r.count)
}

// Name and length of the first n bytes of a buffer, and these bytes, or the digest of more than 64.
pub fn print_buffer(rt: &impl Print, name: &str, whole: &[u8], n: usize) -> io::Result<()> {
    let a = front(whole, n);
    match a.len() {
        0 => println!(rt; "{name} 0"),
        1..=64 => println!(rt; "{name} {} {}", a.len(), Hex(a)),
        _ => println!(rt; "{name} {} shake128 {}", a.len(), Hex(&digest(a))),
    }
}

// Name and length of a list, and its numbers.
pub fn print_list(rt: &impl Print, name: &str, list: &[u32]) -> io::Result<()> {
    print!(rt; "{name} {}", list.len())?;
    for number in list {
        print!(rt; " {number}")?;
    }
    println!(rt;)
}
