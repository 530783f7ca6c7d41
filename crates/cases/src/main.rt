// Runs worked examples of RULES 11 and a table of numbers, a line a case. The expected lines are worked out by other means: tests/.
// No contract can say what is written, so that what prints is private.
#![tactic(auto)]

ghost use Rattle.std.specs.Prelude.{◌≡◌, length};

use number::{Fault, Fixed, Number, Range};
use pixel::MatrixRow;
use std::fs::File;
use std::io;
use std::io::{ErrorKind, Read};
use std::rt::Files;
use tables::field::hex;

// Worked by hand: P1, the way back of P2, P7 and P12 (RULES 11.1), and the numbers that are run (11.2). Then what a half between two units
// becomes: the even one of a number, the larger one of saturate's own coefficients.

fn print_row(rt: &impl Print, name: &str, row: MatrixRow) -> io::Result<()> {
    println!(rt; "{name} {} {} {}", row.r.above, row.g.above, row.b.above)
}

// The answer of a number, as the end of a line.
fn print_judged(rt: &impl Print, judged: Result<Fixed, Fault>) -> io::Result<()> {
    match judged {
        Ok(units) => println!(rt; " {} {}", units.above, units.below),
        Err(fault) => println!(rt; " refused {}", number::fault_number(fault)),
    }
}

fn print_decimal(rt: &impl Print, name: &str, range: Range, z: i64) -> io::Result<()> {
    print!(rt; "{name}")?;
    print_judged(rt, number::judge(range, Number::Decimal(z)))
}

fn print_single(rt: &impl Print, name: &str, range: Range, bits: u32) -> io::Result<()> {
    print!(rt; "{name}")?;
    print_judged(
        rt,
        number::judge(range, Number::Single(number::single(bits))),
    )
}

// 2.5 and −3.5 units; for s of 65,036 units 0.213 · (1 − s) is 106.5.
fn print_examples(rt: &impl Print) -> io::Result<()> {
    println!(rt; "P1 {}", pixel::alpha::premultiply(255, 128))?;
    println!(rt; "P2 back {}", pixel::alpha::premultiply(85, 3))?;
    print_row(rt, "P7", pixel::color_matrix::saturation_matrix(0).r)?;
    print_decimal(rt, "P12", Range::Deviation, -1)?;
    print_single(rt, "P12 zero", Range::Deviation, 0x80000000)?;
    print_decimal(rt, "Run 32", Range::Deviation, 320000)?;
    print_single(rt, "Run above 32", Range::Deviation, 0x42000001)?;
    print_single(rt, "Run x7fc00000", Range::Deviation, 0x7fc00000)?;
    print_decimal(rt, "Run 0.5", Range::Offset, 5000)?;
    print_single(rt, "Tie 2.5", Range::Coefficient, 0x38200000)?;
    print_single(rt, "Tie -3.5", Range::Coefficient, 0xb8600000)?;
    print_row(
        rt,
        "Saturate 65036",
        pixel::color_matrix::saturation_matrix(65036).g,
    )
}

// Numbers at every edge of every range: data/numbers.in, made by tests/number_cases.py.

fn range_of(digit: u8) -> Range {
    match digit {
        b'0' => Range::Fraction,
        b'1' => Range::Deviation,
        b'2' => Range::Radius,
        b'3' => Range::Offset,
        _ => Range::Coefficient,
    }
}

fn number_of(kind: u8, bits: u64) -> Number {
    if kind == b's' {
        return Number::Single(number::single((bits % 4294967296) as u32));
    }
    Number::Decimal(bits.cast_signed())
}

fn print_number_case(rt: &impl Print, line: &[u8]) -> io::Result<()>
    requires { length line.now ≡ 21 }
{
    rt.write_all(&line[..20])?;
    let bits = hex(line, 4, 16);
    print_judged(
        rt,
        number::judge(range_of(line[0]), number_of(line[2], bits)),
    )
}

// Fills the buffer; false where the file ends before.
fn fill(file: &mut impl Read, buffer: &mut [u8]) -> io::Result<bool> {
    match file.read_exact(buffer) {
        Ok(()) => Ok(true),
        Err(e) if e.kind() == ErrorKind::UnexpectedEof => Ok(false),
        Err(e) => Err(e),
    }
}

// Reads one line and prints its line; false at the end.
fn next_number(rt: &impl Print, file: &mut impl Read) -> io::Result<bool> {
    let mut line = [0u8; 21];
    if !fill(file, &mut line)? {
        return Ok(false);
    }
    print_number_case(rt, &line)?;
    Ok(true)
}

fn print_number_table(rt: &(impl Files + Print)) -> io::Result<()> {
    let mut file = File::open(rt, "numbers.in")?;
    for _ in 0..1000000 {
        if !next_number(rt, &mut file)? {
            break;
        }
    }
    Ok(())
}

fn main(rt: HostRuntime) -> io::Result<()> {
    print_examples(&rt)?;
    print_number_table(&rt)
}
