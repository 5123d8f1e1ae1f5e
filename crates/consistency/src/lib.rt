// The known test of consistency, generator by generator ("Consistent" in the specification).
//
//   Forms, find_images           a form for each generator; the images of the generators below one, under conjugation by it
//   Level                        the test for a generator, with these images
//     value                      a value over them
//     keeps_power, keeps_powers  the images keep the power relations
//     keeps_commutator, keeps_pair, keeps_commutators_of, keeps_commutators    and the commutator relations
//     fixes_power                conjugation by the generator fixes its power word
//     is_inner_at, is_inner_on, is_inner    its power is conjugation by that word
//     passes                     the whole test
//   level_passes, consistent     the test for a generator; for all
#![tactic(auto)]

ghost use Rattle.std.specs.Prelude.{◌≡◌, suc, ◌≤◌, ◌<◌, length};
ghost use Rattle.definitions.specs.Lists.{all_below};
ghost use Rattle.definitions.specs.Presentation.{max_generators};
ghost use Rattle.definitions.specs.Consistency.{keeps_powers, keeps_commutators, fixes_power, power_is_inner, level_test};
ghost use Rattle.rows.specs.Rows.{Ranged};
ghost use Rattle.commuting.specs.Commuting.{Central};
ghost use Rattle.consistency.specs.Images.{Images, Images-prop};
ghost use Rattle.consistency.specs.Answers.{Settles, DecidesTest, power_kept, commutator_kept, inner_at};

use collector::Collector;
use commuting::{Reaches, rises};
use rows::{GENERATORS, Row, Rows, generator, same, word};

// A normal form for each generator.
pub type Forms = [[u32; GENERATORS]; GENERATORS];

// The images of the generators below i under conjugation by generator i, written into rows that are lent.
fn find_images(collector: &Collector, i: usize, images: &mut Forms)
    requires { (i < collector.now.n) × (length images.old ≡ max_generators) }
    ensures { Images i collector.now.primes.now collector.now.rows.now images.new i × (length images.new ≡ max_generators) }
{
    for k in 0..i {
        images[k] = collector.conjugate(i, i, generator(k));
    }
}

// The test for generator i: the images of the generators below it under conjugation by it, and how far each generator
// commutes with every other.
#[derive(Clone, Copy)]
struct Level<'a> {
    collector: &'a Collector<'a>,
    rise: &'a Reaches,
    i: usize,
    images: &'a Forms,
    ghost within: { i < collector.now.n },
    ghost central: { Central (suc i) collector.now.rows.now rise.now },
    ghost imaged: { Images i collector.now.primes.now collector.now.rows.now images.now i } by { Images-prop },
}

impl Level<'_> {
    ghost use Rattle.consistency.specs.Level.{Answers, ValueAt};

    // The value over the images of the first k exponents of x.
    fn value(&self, k: usize, x: Row) -> Row
        requires { k ≤ self.now.i }
        ensures { ValueAt self.now k x result }
    {
        let mut v = [0u32; GENERATORS];
        for m in 0..k {
            // The borrow check does not cover a call whose result is laid into an array that stands already.
            let s = self.collector.scaled(self.i, self.images[m], x[m], v);
            v = s;
        }
        v
    }

    // The images keep the power relation of generator k.
    fn keeps_power(&self, k: usize) -> bool
        requires { k < self.now.i }
        ensures { Answers self.now (λ P i. power_kept P i k) result }
    {
        let c = self.collector;
        let l = c.power(self.i, self.images[k], c.primes[k]);
        let u = word(c.rows, k, k);
        let v = self.value(k, u);
        same(self.i, l, v)
    }

    // The images keep the power relations of the generators below i. Here and below the tests are a `for`: what one answers is known for
    // each presentation, and is no function of k that `all` could be told.
    fn keeps_powers(&self) -> bool
        ensures { Answers self.now keeps_powers result }
    {
        for k in 0..self.i {
            if !self.keeps_power(k) {
                return false;
            }
        }
        true
    }

    // The images keep the commutator relation of generators k < j.
    fn keeps_commutator(&self, j: usize, k: usize) -> bool
        requires { (k < j) × (j < self.now.i) }
        ensures { Answers self.now (λ P i. commutator_kept P i j k) result }
    {
        let c = self.collector;
        let a = self.images[k];
        let b = self.images[j];
        let l = c.product(self.i, a, b);
        let w = word(c.rows, j, k);
        let v = self.value(k + 1, w);
        let s = c.product(self.i, a, v);
        let r = c.product(self.i, b, s);
        same(self.i, l, r)
    }

    // The images keep the commutator relation of generators k < j; where one of the two commutes with every generator up to i
    // there is nothing to test.
    fn keeps_pair(&self, j: usize, k: usize) -> bool
        requires { (k < j) × (j < self.now.i) }
        ensures { Answers self.now (λ P i. commutator_kept P i j k) result }
    {
        self.i < self.rise[k] || self.i < self.rise[j] || self.keeps_commutator(j, k)
    }

    // The images keep the commutator relations of generator j with those below it.
    fn keeps_commutators_of(&self, j: usize) -> bool
        requires { j < self.now.i }
        ensures { Answers self.now (λ P i. all_below j (commutator_kept P i j)) result }
    {
        for k in 0..j {
            if !self.keeps_pair(j, k) {
                return false;
            }
        }
        true
    }

    // The images keep the commutator relations below i.
    fn keeps_commutators(&self) -> bool
        ensures { Answers self.now keeps_commutators result }
    {
        for j in 0..self.i {
            if !self.keeps_commutators_of(j) {
                return false;
            }
        }
        true
    }

    // Conjugation by generator i fixes its power word.
    fn fixes_power(&self) -> bool
        ensures { Answers self.now fixes_power result }
    {
        let u = word(self.collector.rows, self.i, self.i);
        let c = self.collector.conjugate(self.i, self.i, u);
        same(self.i, c, u)
    }

    // As many conjugations by generator i as its prime are conjugation by its power word, at generator k.
    fn is_inner_at(&self, k: usize) -> bool
        requires { k < self.now.i }
        ensures { Answers self.now (λ P i. inner_at P i k) result }
    {
        let c = self.collector;
        let u = word(c.rows, self.i, self.i);
        let g = generator(k);
        let t = c.turned(self.i, g, c.primes[self.i]);
        let left = c.product(self.i, u, t);
        let right = c.product(self.i, g, u);
        same(self.i, left, right)
    }

    // As many conjugations by generator i as its prime are conjugation by its power word, at generator k; where generator k
    // commutes with every generator up to i there is nothing to test.
    fn is_inner_on(&self, k: usize) -> bool
        requires { k < self.now.i }
        ensures { Answers self.now (λ P i. inner_at P i k) result }
    {
        self.i < self.rise[k] || self.is_inner_at(k)
    }

    // As many conjugations by generator i as its prime are conjugation by its power word, at every generator below i.
    fn is_inner(&self) -> bool
        ensures { Answers self.now power_is_inner result }
    {
        for k in 0..self.i {
            if !self.is_inner_on(k) {
                return false;
            }
        }
        true
    }

    // The known test for generator i.
    fn passes(&self) -> bool
        ensures { Answers self.now level_test result }
    {
        self.keeps_powers() && self.keeps_commutators() && self.fixes_power() && self.is_inner()
    }
}

// The known test for generator i, with rows that are lent for the images of those below it.
fn level_passes(collector: &Collector, rise: &Reaches, i: usize, images: &mut Forms) -> bool
    requires { (i < collector.now.n) × Central (suc i) collector.now.rows.now rise.now × (length images.old ≡ max_generators) }
    ensures settles { Settles i collector.now.primes.now collector.now.rows.now (λ P. level_test P i) result }
    ensures long { length images.new ≡ max_generators }
{
    find_images(collector, i, images);
    let level = Level {
        collector,
        rise,
        i,
        images,
    };
    level.passes()
}

// Whether the presentation of n generators is consistent (15): the known test for each generator.
pub fn consistent(primes: &Row, rows: &Rows, n: usize) -> bool
    requires { Ranged n primes.now rows.now }
    ensures { DecidesTest n primes.now rows.now result }
{
    let collector = Collector::new(primes, rows, n);
    let rise = rises(rows, &collector.reach, n);
    let mut images = [[0u32; GENERATORS]; GENERATORS];
    for i in 0..n {
        if !level_passes(&collector, &rise, i, &mut images) {
            return false;
        }
    }
    true
}
