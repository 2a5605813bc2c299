// Big-endian numbers in byte slices, and writing over a part of a buffer.
// Internal: the crates above are proved to meet each `requires`.
// A place and a width belong to the call and not to the slice: a type for them, made anew for each call, would be no plainer than `at + w ≤ length`.
#![tactic(auto)]

ghost use Rattle.std.specs.Prelude.{ℕ, ◌≡◌, [], ◌∷◌, map, ◌+◌, ◌*◌, ◌/◌, ◌%◌, ◌≤◌, length, replicate};
ghost use Rattle.wire.specs.Bytes.{num, big, row, splice, all_zero};

// An unsigned number that stands in bytes, most significant first (01: numbers are big-endian).
pub trait BigEndian: Copy {
    // How many bytes it takes.
    const WIDTH: usize;

    ghost WIDTH: { ℕ };

    // The number that a value is.
    ghost number: { Self → ℕ };

    fn read(d: &[u8], at: usize) -> Self
        requires { at + WIDTH ≤ length d.now }
        ensures { number result ≡ num WIDTH at d.now };

    fn write(self, out: &mut [u8], at: usize)
        requires { at + WIDTH ≤ length out.old }
        ensures { out.new ≡ splice at (big WIDTH (number self)) out.old };
}

// A number of two bytes with its bytes turned about.
fn turned_two(v: u16) -> u16
    ensures { result ≡ v % 256 * 256 + v / 256 }
{
    v % 256 * 256 + v / 256
}

// A number of four bytes with its bytes turned about.
fn turned_four(v: u32) -> u32
    ensures { result ≡ (v % 256 * 256 + v / 256 % 256) * 65536 + (v / 65536 % 256 * 256 + v / 16777216) }
{
    let high = v % 256 * 256 + v / 256 % 256;
    let low = v / 65536 % 256 * 256 + v / 16777216;
    high * 65536 + low
}

// Four alike, and no macro: the toolchain takes no `impl` that a macro of the repository writes. None has an array, as the library's bytes of a
// number are: what the writer reaches has none. Two bytes, or four, are read and written least first and turned about: the compiler makes one load
// and one store of that, and of bytes in the wire's own order it does not.
impl BigEndian for u8 {
    const WIDTH: usize = 1;

    ghost WIDTH = { 1 };

    ghost number = { λ v. v };

    fn read(d: &[u8], at: usize) -> u8 {
        d[at]
    }

    fn write(self, out: &mut [u8], at: usize) {
        out[at] = self;
    }
}

impl BigEndian for u16 {
    const WIDTH: usize = 2;

    ghost WIDTH = { 2 };

    ghost number = { λ v. v };

    fn read(d: &[u8], at: usize) -> u16 {
        turned_two(u16::from(d[at]) + u16::from(d[at + 1]) * 256)
    }

    fn write(self, out: &mut [u8], at: usize) {
        let turned = turned_two(self);
        out[at] = (turned % 256) as u8;
        out[at + 1] = (turned / 256) as u8;
    }
}

impl BigEndian for u32 {
    const WIDTH: usize = 4;

    ghost WIDTH = { 4 };

    ghost number = { λ v. v };

    fn read(d: &[u8], at: usize) -> u32 {
        let first = u32::from(d[at]) + u32::from(d[at + 1]) * 256;
        let last = u32::from(d[at + 2]) + u32::from(d[at + 3]) * 256;
        turned_four(first + last * 65536)
    }

    fn write(self, out: &mut [u8], at: usize) {
        let turned = turned_four(self);
        out[at] = (turned % 256) as u8;
        out[at + 1] = (turned / 256 % 256) as u8;
        out[at + 2] = (turned / 65536 % 256) as u8;
        out[at + 3] = (turned / 16777216) as u8;
    }
}

impl BigEndian for u64 {
    const WIDTH: usize = 8;

    ghost WIDTH = { 8 };

    ghost number = { λ v. v };

    fn read(d: &[u8], at: usize) -> u64 {
        let high = number_at::<u32>(d, at);
        let low = number_at::<u32>(d, at + 4);
        u64::from(high) * 4294967296 + u64::from(low)
    }

    fn write(self, out: &mut [u8], at: usize) {
        put(out, at, (self / 4294967296) as u32);
        put(out, at + 4, (self % 4294967296) as u32);
    }
}

// The number at `at`.
pub fn number_at<T: BigEndian>(d: &[u8], at: usize) -> T
    requires { at + T.WIDTH ≤ length d.now }
    ensures { T.number result ≡ num T.WIDTH at d.now }
{
    T::read(d, at)
}

// Writes a number at `at`.
pub fn put<T: BigEndian>(out: &mut [u8], at: usize, v: T)
    requires { at + T.WIDTH ≤ length out.old }
    ensures { out.new ≡ splice at (big T.WIDTH (T.number v)) out.old }
{
    v.write(out, at);
}

// Writes two numbers side by side from `at` on, and below three and four: one call of these costs a writer less to prove than several of `put`.
pub fn put_two<T: BigEndian>(out: &mut [u8], at: usize, a: T, b: T)
    requires { at + T.WIDTH * 2 ≤ length out.old }
    ensures { out.new ≡ splice at (row T.WIDTH (T.number a ∷ T.number b ∷ [])) out.old }
{
    a.write(out, at);
    b.write(out, at + T::WIDTH);
}

pub fn put_three<T: BigEndian>(out: &mut [u8], at: usize, a: T, b: T, c: T)
    requires { at + T.WIDTH * 3 ≤ length out.old }
    ensures { out.new ≡ splice at (row T.WIDTH (T.number a ∷ T.number b ∷ T.number c ∷ [])) out.old }
{
    put_two(out, at, a, b);
    c.write(out, at + T::WIDTH * 2);
}

pub fn put_four<T: BigEndian>(out: &mut [u8], at: usize, a: T, b: T, c: T, d: T)
    requires { at + T.WIDTH * 4 ≤ length out.old }
    ensures { out.new ≡ splice at (row T.WIDTH (T.number a ∷ T.number b ∷ T.number c ∷ T.number d ∷ [])) out.old }
{
    put_two(out, at, a, b);
    put_two(out, at + T::WIDTH * 2, c, d);
}

// Writes the numbers of a slice side by side from `at` on. The writer keeps to the three above: it would need an array to lend.
pub fn put_row<T: BigEndian>(out: &mut [u8], at: usize, numbers: &[T])
    requires { at + T.WIDTH * length numbers.now ≤ length out.old }
    ensures { out.new ≡ splice at (row T.WIDTH (map T.number numbers.now)) out.old }
{
    for (i, v) in numbers.iter().enumerate() {
        v.write(out, at + T::WIDTH * i);
    }
}

// Copies `src` into `out` from `at` on.
#[tactic(auto, using(crate::proofs::PartLaws::part_put))]
pub fn copy(out: &mut [u8], at: usize, src: &[u8])
    requires { at + length src.now ≤ length out.old }
    ensures { out.new ≡ splice at src.now out.old }
{
    out[at..at + src.len()].copy_from_slice(src);
}

// Writes `n` zero bytes into `out` from `at` on.
#[tactic(auto, using(crate::proofs::PartLaws::part_put))]
pub fn zero(out: &mut [u8], at: usize, n: usize)
    requires { at + n ≤ length out.old }
    ensures { out.new ≡ splice at (replicate n 0) out.old }
{
    out[at..at + n].fill(0);
}

// Whether every byte is zero.
pub fn is_zero(s: &[u8]) -> bool
    ensures { result ≡ all_zero s.now }
{
    s.iter().all(|b| *b == 0)
}

#[cfg(test)]
mod tests {
    use super::put_row;

    // Rows of each width, and one of no numbers: the most significant byte comes first, and the bytes beside the rows are as they were.
    #[test]
    fn rows_are_put_side_by_side(rt: HostRuntime) {
        let mut out = [0xEE; 32];
        put_row(&mut out, 0, &[1u8, 2, 3]);
        put_row(&mut out, 4, &[0x0102u16, 0xFFFE]);
        put_row(&mut out, 9, &[0x0102_0304u32, 0]);
        put_row(&mut out, 18, &[0x0102_0304_0506_0708u64]);
        put_row(&mut out, 32, &[0u64; 0]);
        let wanted = [
            1, 2, 3, 0xEE, 1, 2, 0xFF, 0xFE, 0xEE, 1, 2, 3, 4, 0, 0, 0, 0, 0xEE, 1, 2, 3, 4, 5, 6,
            7, 8, 0xEE, 0xEE, 0xEE, 0xEE, 0xEE, 0xEE,
        ];
        assert_eq!(rt; out, wanted);
    }
}
