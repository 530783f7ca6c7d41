// Runs the reader of step lines, the checks of sheets and their redraw rectangles on the table of data/plans.in, made by the second program
// (reference plans), a line a case. The expected lines are worked out by other means: tests/. No contract can say what is written, so that
// what prints is private.
#![tactic(auto)]

ghost use Rattle.std.specs.Prelude.{◌≡◌, ◌+◌, ◌*◌, ◌≤◌, ◌<◌, length};
ghost use Rattle.filter.specs.Accepted.{Within};
ghost use Rattle.filter.specs.Bytes.{size};
ghost use Rattle.filter.specs.Checks.{sizes_answer};
ghost use Rattle.filter.specs.Limits.{longest_side, most_pixels, most_steps};
ghost use Rattle.damage.specs.InputRects.{AllWithin};

use checks::answers::{number, place};
use checks::checks::{check_next, check_step};
use checks::sizes::{check_rectangle, check_sizes};
use damage::SoFar;
use filter::{Answer, Kind, Map, Rect, Region, Sheet, Step};
use pixel::{Convolution, Edge, Transfer, Transfers};
use std::fs::File;
use std::io;
use std::io::{ErrorKind, Read};
use std::rt::Files;
use tables::field::hex;
use text::reader::scan;
use text::{Form, TextRefusal};
use text_step::step_lines::step_of;

// Lists with fewer, as many and more records than a text has steps; a bad line comes before too few records.

// The refusal of a text: number and place.
fn print_refusal(rt: &impl Print, refusal: TextRefusal) -> io::Result<()> {
    match refusal {
        TextRefusal::Line(n) => print!(rt; " 15 {n}"),
        TextRefusal::Records => print!(rt; " 21 0"),
    }
}

fn print_room(rt: &impl Print, text: &[u8], room: usize) -> io::Result<()> {
    print!(rt; "Room {room}")?;
    match scan(Form::Lines, text, room) {
        Ok(reading) => println!(rt; " 0 0 {}", reading.count),
        Err(refusal) => {
            print_refusal(rt, refusal)?;
            println!(rt; " 0")
        }
    }
}

fn print_rooms(rt: &impl Print) -> io::Result<()> {
    let good = b"lumalpha\t0\t0\t1\t1\tsrc\nlumalpha\t0\t0\t1\t1\tsrc\nlumalpha\t0\t0\t1\t1\tsrc\n";
    print_room(rt, good, 2)?;
    print_room(rt, good, 3)?;
    print_room(rt, good, 4)?;
    print_room(rt, b"lumalpha\t0\t0\t1\t1\tsrc\nlumalpha\t0\t0\t1\t1\n", 0)
}

// Records of a curve as step 2 whose red has so many entries: what no line of the form can claim.

fn curve_of(count: usize) -> Step {
    let transfers = Transfers {
        r: Transfer::Table(count),
        g: Transfer::Identity,
        b: Transfer::Identity,
        a: Transfer::Identity,
    };
    Step {
        kind: Kind::Map(Map::Curve(transfers)),
        ..Step::blank()
    }
}

fn print_entries(rt: &impl Print, count: usize) -> io::Result<()> {
    print!(rt; "Entries {count}")?;
    print_answer(rt, check_step(1, 1, 2, curve_of(count)))?;
    println!(rt)
}

// Records of a convolution as step 2 with such orders; the target is the first place.

fn convolution_of(columns: usize, rows: usize) -> Step {
    let convolution = Convolution {
        columns,
        rows,
        divided: false,
        column: 0,
        row: 0,
        preserve: false,
        edge: Edge::None,
    };
    Step {
        kind: Kind::Convolve(convolution),
        ..Step::blank()
    }
}

fn print_orders(rt: &impl Print, columns: usize, rows: usize) -> io::Result<()> {
    print!(rt; "Orders {columns} {rows}")?;
    print_answer(rt, check_step(1, 1, 2, convolution_of(columns, rows)))?;
    println!(rt)
}

fn print_counts(rt: &impl Print) -> io::Result<()> {
    print_orders(rt, 0, 1)?;
    print_orders(rt, 1, 6)?;
    print_orders(rt, 5, 5)?;
    print_orders(rt, 1000000, 1000000)?;
    print_orders(rt, 6442450941, 2863311531)?;
    print_entries(rt, 0)?;
    print_entries(rt, 1)?;
    print_entries(rt, 16)?;
    print_entries(rt, 17)?;
    print_entries(rt, 1000000)
}

// The table.

fn side(head: &[u8], i: usize) -> usize
    requires { (length head.now ≡ 29) × (i < 7) }
    ensures { result < 65536 }
{
    (hex(head, 4 * i, 4) % 65536) as usize
}

fn print_answer(rt: &impl Print, answer: Answer) -> io::Result<()> {
    print!(rt; " {} {}", number(answer), place(answer))
}

fn print_rect(rt: &impl Print, r: Rect) -> io::Result<()> {
    if damage::rectangle::is_filled(r) {
        print!(rt; " {} {} {} {}", r.left, r.right, r.top, r.bottom)
    } else {
        print!(rt; " -")
    }
}

fn print_damages(rt: &impl Print, count: usize, d: SoFar) -> io::Result<()>
    requires { count ≤ most_steps }
{
    print!(rt; " {}", d.count)?;
    for r in &d.rects[..count] {
        print_rect(rt, *r)?;
    }
    Ok(())
}

// 1 and 3: the canvas and the number of steps, all buffers of the right length.
fn check_canvas(w: usize, h: usize, count: usize) -> Answer
    requires { (w < 65536) × (h < 65536) × (count ≤ most_steps) }
    ensures { result ≡ sizes_answer w h count (size w h) (count * size w h) (2 * size w h) }
{
    let size = 4 * (w * h);
    check_sizes(w, h, count, size, count * size, 2 * size)
}

// The rectangles with that of step n, where the step is not refused.
fn next_damages(w: usize, h: usize, n: usize, step: Step, changed: Rect, damages: SoFar) -> SoFar
    requires n_lt_most_steps { (n < most_steps) × (w ≤ longest_side) × (h ≤ longest_side) × (damages.count ≤ n * most_pixels) }
    requires rects_len { (length damages.rects ≡ most_steps) × AllWithin longest_side longest_side changed damages.rects }
    ensures { (result.count ≤ (n + 1) * most_pixels) × (length result.rects ≡ most_steps) × AllWithin longest_side longest_side changed result.rects }
{
    if check_step(w, h, n, step).is_err() {
        return damages;
    }
    let rects = damages.rects;
    let made = damage::resolve::resolve(step);
    let shape = made.shape;
    let region = damage::rectangle::bounds(step.region);
    let rect = damage::damage::damage_of(w, h, shape, region, changed, rects);
    damage::progress::with_rect(damages, n, rect)
}

// The steps of the lines, one after another: their checks, then their rectangles.
fn print_steps(
    rt: &impl Print,
    w: usize,
    h: usize,
    changed: Rect,
    lines: &[u8],
    count: usize,
) -> io::Result<()>
    requires { (w ≤ longest_side) × (h ≤ longest_side) × (count ≤ most_steps) × Within longest_side longest_side changed }
{
    let mut answer = Ok(());
    let mut damages = damage::progress::none_so_far();
    let mut at: usize = 0;
    for n in 0..count {
        let e = text_field::lines::find(lines, at, 10);
        if lines.len() <= e {
            return Ok(());
        }
        let step = step_of(&lines[at..e]).unwrap_or(Step::blank());
        answer = check_next(answer, w, h, n, step);
        damages = next_damages(w, h, n, step, changed, damages);
        at = text::reader::line_after(lines, at);
    }
    print_answer(rt, answer)?;
    if answer.is_ok() {
        print_damages(rt, count, damages)?;
    }
    Ok(())
}

fn print_plan(
    rt: &impl Print,
    w: usize,
    h: usize,
    changed: Region,
    lines: &[u8],
    count: usize,
) -> io::Result<()>
    requires { (w < 65536) × (h < 65536) }
{
    if Sheet::STEPS < count {
        return Ok(());
    }
    let early = check_canvas(w, h, count).and(check_rectangle(w, h, changed));
    if early.is_ok() {
        print_steps(rt, w, h, damage::rectangle::bounds(changed), lines, count)
    } else {
        print_answer(rt, early)
    }
}

fn print_plan_case(rt: &impl Print, head: &[u8], lines: &[u8]) -> io::Result<()>
    requires { length head.now ≡ 29 }
{
    let changed = Region {
        x: side(head, 2),
        y: side(head, 3),
        width: side(head, 4),
        height: side(head, 5),
    };
    match scan(Form::Lines, lines, Sheet::STEPS) {
        Ok(reading) => print_plan(
            rt,
            side(head, 0),
            side(head, 1),
            changed,
            lines,
            reading.count,
        ),
        Err(refusal) => print_refusal(rt, refusal),
    }
}

// Fills the buffer; false where the file ends before.
fn fill(file: &mut impl Read, buffer: &mut [u8]) -> io::Result<bool> {
    match file.read_exact(buffer) {
        Ok(()) => Ok(true),
        Err(e) if e.kind() == ErrorKind::UnexpectedEof => Ok(false),
        Err(e) => Err(e),
    }
}

fn print_lines(rt: &impl Print, file: &mut impl Read, head: &[u8], n: u64) -> io::Result<bool>
    requires { length head.now ≡ 29 }
{
    let long = side(head, 6);
    let mut lines = [0u8; 8192];
    if 8192 < long {
        return Ok(false);
    }
    if !fill(file, &mut lines[..long])? {
        return Ok(false);
    }
    print!(rt; "{n}")?;
    print_plan_case(rt, head, &lines[..long])?;
    println!(rt)?;
    Ok(true)
}

// Reads one entry and prints its line; false at the end.
fn next_plan(rt: &impl Print, file: &mut impl Read, n: u64) -> io::Result<bool> {
    let mut head = [0u8; 29];
    if !fill(file, &mut head)? {
        return Ok(false);
    }
    print_lines(rt, file, &head, n)
}

fn print_plan_table(rt: &(impl Files + Print)) -> io::Result<()> {
    let mut file = File::open(rt, "plans.in")?;
    for n in 0..1000000 {
        if !next_plan(rt, &mut file, n)? {
            break;
        }
    }
    Ok(())
}

fn main(rt: HostRuntime) -> io::Result<()> {
    print_rooms(&rt)?;
    print_counts(&rt)?;
    print_plan_table(&rt)
}
