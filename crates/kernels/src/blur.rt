// The passes of a blur, and rows to and from lines.
ghost use Rattle.std.specs.Prelude.{ℕ, ◌+◌, ◌*◌, ◌≤◌, ◌<◌, length};
ghost use Rattle.window.specs.Store.{byte_at, WorkBuffer};
ghost use Rattle.window.specs.Ranges.{Apart};
ghost use Rattle.kernel_blur.specs.StridedRows.{Rows};
ghost use Rattle.kernel_blur.specs.Blurred.{Blurred};

#[unsafe(no_mangle)]
pub extern "C" fn twillgoose_kernel_blur_lines(
    buf: &mut [u8],
    a: usize,
    b: usize,
    n: usize,
    count: usize,
    d: usize,
    sums: &mut [u16],
)
    requires n_in_bounds { (a + count * n ≤ length buf.old) × (b + count * n ≤ length buf.old) × Apart a (count * n) b (count * n) }
    requires n_in_bounds_2 { (n ≤ length sums.old) × (count ≤ 65536) × (2 ≤ d) × (d ≤ 60) }
    ensures blurred { Blurred d a b n count buf.old buf.new }
    ensures work_buffer { WorkBuffer sums.old sums.new }
{
    kernel_blur::blur::blur_lines(buf, a, b, n, count, d, sums);
}

#[unsafe(no_mangle)]
pub extern "C" fn twillgoose_kernel_copy_rows(
    src: &[u8],
    from: usize,
    stride: usize,
    dst: &mut [u8],
    to: usize,
    step: usize,
    n: usize,
    rows: usize,
)
    requires { (n ≤ step) × ((v : ℕ) → v < rows → (from + v * stride + n ≤ length src.now) × (to + v * step + n ≤ length dst.old)) }
    ensures { Rows (λ v i. byte_at src.now from stride v i) to step n rows dst.old dst.new }
{
    kernel_blur::rows::copy_rows(src, from, stride, dst, to, step, n, rows);
}

#[unsafe(no_mangle)]
pub extern "C" fn twillgoose_kernel_spread(row: &[u8], dst: &mut [u8], at: usize, w: usize)
    requires { (4 * w ≤ length row.now) × (at + 32 * w ≤ length dst.old + 28) }
    ensures { Rows (λ x c. byte_at row.now 0 4 x c) at 32 4 w dst.old dst.new }
{
    kernel_blur::rows::deal_row(row, dst, at, w);
}

#[unsafe(no_mangle)]
pub extern "C" fn twillgoose_kernel_gather(src: &[u8], at: usize, row: &mut [u8], w: usize)
    requires { (at + 32 * w ≤ length src.now + 28) × (4 * w ≤ length row.old) }
    ensures { Rows (λ x c. byte_at src.now at 32 x c) 0 4 4 w row.old row.new }
{
    kernel_blur::rows::gather(src, at, row, w);
}
