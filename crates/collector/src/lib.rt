// Product and conjugation of normal forms, level by level, with powers and repeated conjugation. The words of a
// presentation stand in rows, one for each pair of generators.
//
//   remainder                    a product of two exponents, divided by a prime
//   remaining                    turns of a map that are left, once a period is known
//   Collector                    the primes and words that are read, and which generators commute with those below them
//     new                        that of the first generators of a presentation
//     product, multiply          the product; in place of its left factor
//     turn, carry                its parts: repeated conjugation, and the power word
//     image, conjugate, turned   conjugates: of a generator, of a form, again and again
//     alone, multiple            powers of a form of one generator
//     power, scaled              a power; a power times a form
#![tactic(auto)]

ghost use Rattle.std.specs.Prelude.{◌≡◌, ◌*◌, ◌%◌, ◌≤◌, ◌<◌, length, get_or};
ghost use Rattle.definitions.specs.Presentation.{max_generators};
ghost use Rattle.rows.specs.Rows.{Small, Ranged, Single};
ghost use Rattle.collector.specs.Products.{Prepared, Alone, Product, Image, Conjugate, Remaining, Power, Scaled, Turned};
ghost use Rattle.collector.specs.Products.{MultipliedInPlace, CarriedInPlace, TurnedInPlace};

use commuting::{Reaches, moved, reaches};
use rows::{GENERATORS, Row, Rows, copied, same, stacked, top, wide, word};

// The product of a and e, divided by p: the remainder.
fn remainder(a: u32, e: u32, p: u32) -> u32
    requires { 0 < p }
    ensures { result ≡ (a * e) % p }
{
    (wide(a) * wide(e) % wide(p)) as u32
}

// How many of `left` more turns of a map are needed after the n that led from x to c: where c is x again, whole periods
// are left out.
fn remaining(k: usize, x: Row, c: Row, n: u32, left: u32) -> u32
    requires { (k ≤ max_generators) × (0 < n) }
    ensures { Remaining k x c n left result }
{
    if left == 0 {
        return left;
    }
    if same(k, x, c) { left % n } else { left }
}

// The first n generators of a presentation: their primes and words, and from where on each commutes with those below it.
#[derive(Drop)]
pub struct Collector<'a> {
    pub n: usize,
    pub primes: &'a Row,
    pub rows: &'a Rows,
    pub reach: Reaches,
    pub ghost prepared: { Prepared n primes.now rows.now reach },
}

impl<'a> Collector<'a> {
    pub fn new(primes: &'a Row, rows: &'a Rows, n: usize) -> Self
        requires { Ranged n primes.now rows.now }
        ensures { (result.n ≡ n) × (result.primes.now ≡ primes.now) × (result.rows.now ≡ rows.now) }
    {
        Collector {
            n,
            primes,
            rows,
            reach: reaches(rows, n),
        }
    }

    // The first k exponents of x after b conjugations by generator k.
    #[cycle(collect)]
    fn turn(&self, k: usize, x: &mut Row, b: u32)
        requires { (k < self.now.n) × Small k self.now.primes.now x.old × (length x.old ≡ max_generators) }
        ensures { TurnedInPlace k b self.now.primes.now self.now.rows.now x.old x.new }
    {
        if self.reach[k] == 0 {
            return;
        }
        let c = self.turned(k, *x, b);
        copied(k, c, x);
    }

    // The power word of generator k, times the first k exponents of x.
    #[cycle(collect)]
    fn carry(&self, k: usize, x: &mut Row)
        requires { (k < self.now.n) × Small k self.now.primes.now x.old × (length x.old ≡ max_generators) }
        ensures { CarriedInPlace k self.now.primes.now self.now.rows.now x.old x.new }
    {
        let u = word(self.rows, k, k);
        if top(k, &u) == 0 {
            return;
        }
        let v = self.product(k, u, *x);
        copied(k, v, x);
    }

    // x times y on level i. The conjugates that this needs are of the level below the highest exponent of y.
    #[cycle(collect)]
    fn multiply(&self, i: usize, x: &mut Row, y: &Row)
        requires { (i ≤ self.now.n) × Small i self.now.primes.now x.old × Small i self.now.primes.now y.now × (length x.old ≡ max_generators) }
        ensures { MultipliedInPlace i self.now.primes.now self.now.rows.now x.old y.now x.new }
    {
        let m = top(i, y);
        if m == 0 {
            return;
        }
        let k = m - 1;
        let b = y[k];
        self.turn(k, x, b);
        self.multiply(k, x, y);
        let s = x[k] + b;
        let p = self.primes[k];
        if s < p {
            x[k] = s;
            return;
        }
        self.carry(k, x);
        x[k] = s - p;
    }

    // The product of x and y on level i.
    #[cycle(collect)]
    pub fn product(&self, i: usize, x: Row, y: Row) -> Row
        requires { (i ≤ self.now.n) × Small i self.now.primes.now x × Small i self.now.primes.now y }
        ensures { Product i self.now.primes.now self.now.rows.now x y result }
    {
        let mut r = x;
        self.multiply(i, &mut r, &y);
        r
    }

    // The conjugate of generator l by generator j.
    #[cycle(collect)]
    fn image(&self, j: usize, l: usize) -> Row
        requires { (j < self.now.n) × (l < j) }
        ensures { Image j l self.now.primes.now self.now.rows.now result }
    {
        let mut h = word(self.rows, j, l);
        let s = h[l] + 1;
        let p = self.primes[l];
        if s < p {
            h[l] = s;
            return h;
        }
        let u = word(self.rows, l, l);
        let mut v = self.product(l, u, h);
        v[l] = 0;
        v
    }

    // The conjugate of x by generator j on level k, k ≤ j. It is a product on the level of the highest exponent that moves.
    #[cycle(collect)]
    pub fn conjugate(&self, k: usize, j: usize, x: Row) -> Row
        requires { (j < self.now.n) × (k ≤ j) × Small k self.now.primes.now x }
        ensures { Conjugate k j self.now.primes.now self.now.rows.now x result }
    {
        let m = moved(self.rows, &self.reach, k, j, &x);
        if m == 0 {
            return x;
        }
        let l = m - 1;
        let mut z = self.conjugate(l, j, x);
        z[l] = 0;
        let h = self.image(j, l);
        let r = self.power(m, h, x[l]);
        let s = self.product(m, r, z);
        stacked(l, s, x, s[l])
    }

    // Whether x has an exponent of generator m - 1 and none below, and the power word of that generator is empty.
    fn alone(&self, m: usize, x: Row) -> bool
        requires { m ≤ max_generators }
        ensures { Alone self.now.rows.now m x result }
    {
        if m == 0 || top(m - 1, &x) != 0 {
            return false;
        }
        let u = word(self.rows, m - 1, m - 1);
        top(m - 1, &u) == 0
    }

    // The exponent of generator k in x, e times, below its prime.
    fn multiple(&self, k: usize, x: Row, e: u32) -> Row
        requires { k < self.now.n }
        ensures { Single k ((get_or x k 0 * e) % get_or self.now.primes.now k 0) result }
    {
        let mut r = [0u32; GENERATORS];
        r[k] = remainder(x[k], e, self.primes[k]);
        r
    }

    // x to the power e on level i.
    #[cycle(collect)]
    pub fn power(&self, i: usize, x: Row, e: u32) -> Row
        requires { (i ≤ self.now.n) × Small i self.now.primes.now x }
        ensures { Power i self.now.primes.now self.now.rows.now x result e }
    {
        if e == 1 {
            return x;
        }
        let m = top(i, &x);
        if self.alone(m, x) {
            return self.multiple(m - 1, x, e);
        }
        let mut r = [0u32; GENERATORS];
        for _n in 0..e {
            // The borrow check does not cover a call whose result is laid into an array that stands already.
            let s = self.product(i, x, r);
            r = s;
        }
        r
    }

    // x after b conjugations by generator i, on level i.
    #[cycle(collect)]
    pub fn turned(&self, i: usize, x: Row, b: u32) -> Row
        requires { (i < self.now.n) × Small i self.now.primes.now x }
        ensures { Turned i b self.now.primes.now self.now.rows.now x result }
    {
        if self.reach[i] == 0 {
            return x;
        }
        let mut c = x;
        let mut n: u32 = 0;
        let mut left = b;
        // Whole periods are left out, so that what is left may fall by more than one.
        while left > 0 {
            let d = self.conjugate(i, i, c);
            n += 1;
            left = remaining(i, x, d, n, left - 1);
            c = d;
        }
        c
    }

    // x to the power e, times v, on level i.
    pub fn scaled(&self, i: usize, x: Row, e: u32, v: Row) -> Row
        requires { (i ≤ self.now.n) × Small i self.now.primes.now x × Small i self.now.primes.now v }
        ensures { Scaled i self.now.primes.now self.now.rows.now x e v result }
    {
        if e == 0 {
            return v;
        }
        let q = self.power(i, x, e);
        self.product(i, q, v)
    }
}
