// Runs the entry points on the calls of data/calls.in, made by the second program (reference calls). The expected lines are worked out by
// other means: tests/. No contract can say what is written, so that what prints is private.
#![tactic(auto)]

mod show;

ghost use Rattle.std.specs.Prelude.{◌≡◌, ◌+◌, ◌≤◌, ◌<◌, length};

use checks::answers::{number, place};
use filter::{Call, Region, Sheet};
use lines::draw_lines;
use show::Show;
use std::fs::File;
use std::io;
use std::io::{ErrorKind, Read};
use std::rt::Files;
use tables::content::{is_zero, sum};
use tables::field::hex;
use text::reader::scan;
use text::{Form, TextRefusal};

// What an entry asks for besides its step lines and its buffers; the layer that is printed, and how.
#[derive(Clone, Copy)]
struct Entry {
    width: usize,
    height: usize,
    call: Call,
    count: usize,
    layer: usize,
    show: Show,
}

// What a call left in a buffer: kept, or cleared to zeros, or changed.
fn print_change(rt: &impl Print, before: &[u8], after: &[u8], cleared: bool) -> io::Result<()> {
    if before == after {
        return print!(rt; " kept");
    }
    if cleared {
        return print!(rt; " cleared");
    }
    print!(rt; " changed")
}

// The layer's pixels in hex.
fn print_pixels(rt: &impl Print, layer: &[u8]) -> io::Result<()> {
    for (i, x) in layer.iter().enumerate() {
        if i % 4 == 0 {
            print!(rt; " ")?;
        }
        print!(rt; "{x:02x}")?;
    }
    Ok(())
}

// Its alphas alone.
fn print_alphas(rt: &impl Print, layer: &[u8]) -> io::Result<()> {
    for (i, x) in layer.iter().enumerate() {
        if i % 4 == 3 {
            print!(rt; " {x}")?;
        }
    }
    Ok(())
}

fn print_layer(rt: &impl Print, entry: Entry, workspace: &[u8]) -> io::Result<()> {
    let layer = render::views::layer(
        entry.width,
        entry.height,
        entry.count,
        entry.layer,
        workspace,
    );
    match entry.show {
        Show::Sums => print!(rt; " {} {} {}", sum(workspace), layer.len(), sum(layer)),
        Show::Pixels => print_pixels(rt, layer),
        Show::Alphas => print_alphas(rt, layer),
        Show::Nothing => Ok(()),
    }
}

// Lines rendered or redrawn, on buffers of their own, and the line of that.
fn run(
    rt: &impl Print,
    entry: Entry,
    text: &[u8],
    source: &[u8],
    workspace: &mut [u8],
    scratch: &mut [u8],
) -> io::Result<()> {
    let drawn = draw_lines(
        Form::Lines,
        text,
        entry.call,
        entry.width,
        entry.height,
        source,
        workspace,
        scratch,
    );
    let answer = drawn.answer;
    match entry.call {
        Call::Render => print!(rt; " render {} {}", number(answer), place(answer)),
        Call::Redraw(_) => print!(rt;
            " redraw {} {} {}",
            number(answer),
            place(answer),
            drawn.count
        ),
    }
}

// The call is made on copies: layers of the workspace, spare of the scratch.
fn print_on(
    rt: &impl Print,
    entry: Entry,
    text: &[u8],
    source: &[u8],
    workspace: &[u8],
    scratch: &[u8],
    layers: &mut [u8],
    spare: &mut [u8],
) -> io::Result<()>
    requires { (length workspace.now ≡ length layers.old) × (length scratch.now ≡ length spare.old) }
{
    layers.copy_from_slice(workspace);
    spare.copy_from_slice(scratch);
    run(rt, entry, text, source, layers, spare)?;
    print_change(rt, workspace, &layers[..], false)?;
    print_change(rt, scratch, &spare[..], is_zero(&spare[..]))?;
    print_layer(rt, entry, &layers[..])?;
    println!(rt)
}

// One call, a redraw or a render, and its line.
fn print_call(
    rt: &impl Print,
    entry: Entry,
    text: &[u8],
    source: &[u8],
    workspace: &[u8],
    scratch: &[u8],
) -> io::Result<()>
    requires { (length workspace.now ≤ 16384) × (length scratch.now ≤ 4096) }
{
    let mut layers = [0u8; 16384];
    let mut spare = [0u8; 4096];
    print_on(
        rt,
        entry,
        text,
        source,
        workspace,
        scratch,
        &mut layers[..workspace.len()],
        &mut spare[..scratch.len()],
    )
}

// The entries of data/calls.in: a head, step lines, and the bytes of source, workspace and scratch.
// Field i of a head, after the name of 12 bytes and the letter that says how a layer is printed.
fn value(head: &[u8], i: usize) -> usize
    requires { (length head.now ≡ 206) × (i < 12) }
{
    hex(head, 13 + 16 * i, 16) as usize
}

fn changed_in(head: &[u8]) -> Region
    requires { length head.now ≡ 206 }
{
    Region {
        x: value(head, 2),
        y: value(head, 3),
        width: value(head, 4),
        height: value(head, 5),
    }
}

fn entry_of(head: &[u8], call: Call) -> Entry
    requires { length head.now ≡ 206 }
{
    Entry {
        width: value(head, 0),
        height: value(head, 1),
        call,
        count: value(head, 6),
        layer: value(head, 7),
        show: Show::from(head[12]),
    }
}

// Its lines: a render and a redraw, or the refusal of its text.
fn print_entry(
    rt: &impl Print,
    head: &[u8],
    text: &[u8],
    source: &[u8],
    workspace: &[u8],
    scratch: &[u8],
) -> io::Result<()>
    requires { (length head.now ≡ 206) × (length workspace.now ≤ 16384) × (length scratch.now ≤ 4096) }
{
    rt.write_all(&head[..12])?;
    match scan(Form::Lines, text, Sheet::STEPS) {
        Ok(_) => {
            let render = entry_of(head, Call::Render);
            print_call(rt, render, text, source, workspace, scratch)?;
            rt.write_all(&head[..12])?;
            let redraw = entry_of(head, Call::Redraw(changed_in(head)));
            print_call(rt, redraw, text, source, workspace, scratch)
        }
        Err(TextRefusal::Line(n)) => println!(rt; " text 15 {n}"),
        Err(TextRefusal::Records) => println!(rt; " text 21 0"),
    }
}

// A length that the head names, as far as there is room for it.
fn long(head: &[u8], i: usize, most: usize) -> usize
    requires { (length head.now ≡ 206) × (i < 12) }
    ensures { result ≤ most }
{
    value(head, i).min(most)
}

// Takes the rest of an entry apart: a bytes of step lines, b of the source, c of the workspace, d of the scratch.
fn print_parts(
    rt: &impl Print,
    head: &[u8],
    rest: &[u8],
    a: usize,
    b: usize,
    c: usize,
    d: usize,
) -> io::Result<()>
    requires { (length head.now ≡ 206) × (length rest.now ≡ a + b + c + d) × (c ≤ 16384) × (d ≤ 4096) }
{
    let e = a + b;
    let f = e + c;
    print_entry(rt, head, &rest[..a], &rest[a..e], &rest[e..f], &rest[f..])
}

// Fills the buffer; false where the file ends before.
fn fill(file: &mut impl Read, buffer: &mut [u8]) -> io::Result<bool> {
    match file.read_exact(buffer) {
        Ok(()) => Ok(true),
        Err(e) if e.kind() == ErrorKind::UnexpectedEof => Ok(false),
        Err(e) => Err(e),
    }
}

// Reads what follows a head and prints its lines; false where the file is too short.
fn print_rest(rt: &impl Print, file: &mut impl Read, head: &[u8]) -> io::Result<bool>
    requires { length head.now ≡ 206 }
{
    let a = long(head, 8, 8192);
    let b = long(head, 9, 2048);
    let c = long(head, 10, 16384);
    let d = long(head, 11, 4096);
    let n = a + b + c + d;
    let mut rest = [0u8; 30720];
    if !fill(file, &mut rest[..n])? {
        return Ok(false);
    }
    print_parts(rt, head, &rest[..n], a, b, c, d)?;
    Ok(true)
}

// Reads one entry and prints its lines; false at the end.
fn next_entry(rt: &impl Print, file: &mut impl Read) -> io::Result<bool> {
    let mut head = [0u8; 206];
    if !fill(file, &mut head)? {
        return Ok(false);
    }
    print_rest(rt, file, &head)
}

fn print_entries(rt: &(impl Files + Print)) -> io::Result<()> {
    let mut file = File::open(rt, "calls.in")?;
    for _ in 0..1000000 {
        if !next_entry(rt, &mut file)? {
            break;
        }
    }
    Ok(())
}

fn main(rt: HostRuntime) -> io::Result<()> {
    print_entries(&rt)
}
