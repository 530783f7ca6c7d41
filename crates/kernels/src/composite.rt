// Porter-Duff rows.
ghost use Rattle.std.specs.Prelude.{◌≡◌, ◌*◌, length};
ghost use Rattle.window.specs.Store.{WorkBuffer};
ghost use Rattle.pixel.specs.Bytes.{Painted, ValidRow};
ghost use Rattle.kernel_composite.specs.CompositedRow.{composited_at};
ghost use Rattle.kernels.specs.PlainNumbers.{operator_at};

use pixel::Operator;

fn operator_at(op: u8) -> Operator
    ensures { result ≡ operator_at op }
{
    match op {
        0 => Operator::Over,
        1 => Operator::In,
        2 => Operator::Out,
        3 => Operator::Atop,
        _ => Operator::Xor,
    }
}

#[unsafe(no_mangle)]
pub extern "C" fn twillgoose_kernel_composite_row(
    op: u8,
    a: &[u8],
    b: &[u8],
    f: &mut [u8],
    g: &mut [u8],
    dst: &mut [u8],
    n: usize,
)
    requires a_len { (length a.now ≡ 4 * n) × (length b.now ≡ 4 * n) × (length f.old ≡ 4 * n) × (length g.old ≡ 4 * n) × (length dst.old ≡ 4 * n) }
    requires valid_row { ValidRow a.now n × ValidRow b.now n }
    ensures painted { Painted (composited_at (operator_at op) a.now b.now) 0 0 n dst.old dst.new }
    ensures work_buffer { WorkBuffer f.old f.new × WorkBuffer g.old g.new }
{
    kernel_composite::composite_row(operator_at(op), a, b, f, g, dst, n);
}
