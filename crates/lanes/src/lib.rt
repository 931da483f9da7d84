// An operation on all lanes of a row, by their patterns. Every open function takes every argument.
#![tactic(auto)]

ghost use Rattle.std.specs.Prelude.{◌≡◌, ℕ, true, refl, ◌<◌, ◌≤◌, map};
ghost use Rattle.std.specs.Float.{Format, binary64};
ghost use Rattle.number.specs.Bytes.{table};
ghost use Rattle.float.specs.Floats.{Finite, added, subtracted, multiplied, selected};
ghost use Rattle.lanes.specs.declared.Kind.{Kind};
ghost use Rattle.lanes.specs.declared.Kind.TheVariants as kind;
ghost use Rattle.lanes.specs.Lanes.{AllFinite, each, meaning_of, asks_both};

use float::Pattern;

// ---- an operation on two patterns

// Which of four an operation is, by what it means.
#[derive(Clone, Copy)]
pub enum Kind {
    Sum,
    Difference,
    Product,
    Choice,
}

pub trait Operation {
    ghost meaning: { Format → ℕ → ℕ → ℕ };

    ghost KIND: { Kind };

    const KIND: Kind;

    fn of<T: Pattern>(a: T, b: T) -> T
        ensures { T.bits result ≡ meaning T.format (T.bits a) (T.bits b) };

    // what its kind means
    ghost same: { (f : Format) (a b : ℕ) → meaning_of KIND f a b ≡ meaning f a b };
}

pub struct Sum;

impl Operation for Sum {
    ghost meaning = { added };

    ghost KIND = { kind.Sum };

    ghost same = { λ f a b. refl };

    const KIND: Kind = Kind::Sum;

    fn of<T: Pattern>(a: T, b: T) -> T {
        a.add(b)
    }
}

pub struct Difference;

impl Operation for Difference {
    ghost meaning = { subtracted };

    ghost KIND = { kind.Difference };

    ghost same = { λ f a b. refl };

    const KIND: Kind = Kind::Difference;

    fn of<T: Pattern>(a: T, b: T) -> T {
        a.sub(b)
    }
}

pub struct Product;

impl Operation for Product {
    ghost meaning = { multiplied };

    ghost KIND = { kind.Product };

    ghost same = { λ f a b. refl };

    const KIND: Kind = Kind::Product;

    fn of<T: Pattern>(a: T, b: T) -> T {
        a.mul(b)
    }
}

// 0 where the first is at most 0, and the second elsewhere.
pub struct Choice;

impl Operation for Choice {
    ghost meaning = { selected };

    ghost KIND = { kind.Choice };

    ghost same = { λ f a b. refl };

    const KIND: Kind = Kind::Choice;

    fn of<T: Pattern>(a: T, b: T) -> T {
        a.select(b)
    }
}

// ---- two doubles that are known to be finite: no result is a NaN, so that nothing is tested

// 0 where a pattern is neither infinite nor a NaN, and 1 elsewhere: by a sum, as the baseline target has no comparison of 64 bits.
fn special(a: u64) -> u64
    ensures { (result ≤ 1) × (result ≡ 0 → Finite binary64 a) }
{
    (a % 0x8000_0000_0000_0000 + 0x0010_0000_0000_0000) / 0x8000_0000_0000_0000
}

// Whether the second has to be finite too.
fn asks_both(kind: Kind) -> bool
    ensures { result ≡ asks_both kind }
{
    !matches!(kind, Kind::Choice)
}

fn of_finite(kind: Kind, a: u64, b: u64) -> u64
    requires { Finite binary64 a × (asks_both kind ≡ true → Finite binary64 b) }
    ensures { result ≡ meaning_of kind binary64 a b }
{
    let x = f64::from_bits(a);
    match kind {
        Kind::Sum => (x + f64::from_bits(b)).to_bits(),
        Kind::Difference => (x - f64::from_bits(b)).to_bits(),
        Kind::Product => (x * f64::from_bits(b)).to_bits(),
        Kind::Choice => if x <= 0.0 { 0 } else { b },
    }
}

// ---- all lanes

// Whether all are finite, as doubles.
fn finite<T: Pattern, const N: usize>(a: &[T; N]) -> bool
    ensures { result ≡ true → AllFinite binary64 (map T.bits a.now) N }
{
    // A count by index: the proof tells which of them are finite.
    let mut found = 0u64;
    for l in 0..N {
        found = found + special(a[l].widened());
    }
    found == 0
}

fn each_finite<O: Operation, T: Pattern, const N: usize>(a: &[T; N], b: &[T; N]) -> [T; N]
    requires { (T.format ≡ binary64) × AllFinite binary64 (map T.bits a.now) N × (asks_both O.KIND ≡ true → AllFinite binary64 (map T.bits b.now) N) }
    ensures { map T.bits result ≡ table (each (O.meaning T.format) (map T.bits a.now) (map T.bits b.now)) 0 N }
{
    std::array::from_fn(
        |l: usize| -> T
            requires { (l < N) × (T.format ≡ binary64) × AllFinite binary64 (map T.bits a.now) N
                × (asks_both O.KIND ≡ true → AllFinite binary64 (map T.bits b.now) N) }
            ensures { T.bits result ≡ each (O.meaning T.format) (map T.bits a.entry.now) (map T.bits b.entry.now) l }
        { T::narrowed(of_finite(O::KIND, a[l].widened(), b[l].widened())) },
    )
}

// Doubles that are all finite are done without a test lane by lane, and the compiler does two at a time. Of singles it does four at a time, tests
// and all.
pub fn each<O: Operation, T: Pattern, const N: usize>(a: &[T; N], b: &[T; N]) -> [T; N]
    ensures { map T.bits result ≡ table (each (O.meaning T.format) (map T.bits a.now) (map T.bits b.now)) 0 N }
{
    if T::is_double() && finite(a) && (!asks_both(O::KIND) || finite(b)) {
        return each_finite::<O, T, N>(a, b);
    }
    std::array::from_fn(
        |l: usize| -> T
            requires { l < N }
            ensures { T.bits result ≡ each (O.meaning T.format) (map T.bits a.entry.now) (map T.bits b.entry.now) l }
        { O::of(a[l], b[l]) },
    )
}
