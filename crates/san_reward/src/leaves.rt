//! The rates of the leaves' terms, and the sums that they move.

ghost use Rattle.san_base.specs.declared.limits.TheConstants.{MAX_LEAVES};
ghost use Rattle.std.specs.Prelude.{◌≡◌, ◌*◌, ◌+ℤ◌, ◌-ℤ◌, ◌<◌, ◌≤◌, ◌^◌, [], ℕ, None, length, map, slice_index_or, slice_set, unsigned_abs};
ghost use Rattle.san_law.specs.Reward.{plus, zero_sum};
ghost use Rattle.san_reward.specs.Smallness.{IsAtMost};
ghost use Rattle.san_reward.specs.inner.Present.{amount, fault, present_at, replaced};
ghost use Rattle.san_reward.specs.Running.{rates_with};
ghost use Rattle.san_reward.specs.inner.Bounds.{MAX_PRESENT, MAX_SUM};

use crate::present::{Present, amount, fault, plus};

/// The reward of a leaf's term.
pub(crate) fn reward_of(terms: &Vec<Vec<u32>>, leaf: u32, term: usize) -> u32
    requires leaf { leaf < length terms.now.items }
    requires term { term < length (slice_index_or (map (λ v. v.items) terms.now.items) leaf []) }
    ensures { result ≡ slice_index_or (slice_index_or (map (λ v. v.items) terms.now.items) leaf
        []) term 0 }
{
    terms[leaf as usize][term]
}

/// Sets the rate of a leaf's term, and gives the one before.
pub(crate) fn put_rate(
    rates: &mut Vec<Vec<Option<i64>>>,
    leaf: u32,
    term: usize,
    new: Option<i64>,
) -> Option<i64>
    requires leaf { leaf < length rates.old.items }
    requires term { term < length (slice_index_or (map (λ v. v.items) rates.old.items) leaf []) }
    ensures before { result
        ≡ slice_index_or (slice_index_or (map (λ v. v.items) rates.old.items) leaf [])
        term None }
    ensures after { map (λ v. v.items) rates.new.items
        ≡ rates_with (map (λ v. v.items) rates.old.items) leaf
        term new }
{
    let of_leaf = &mut rates[leaf as usize];
    let old = of_leaf[term];
    of_leaf[term] = new;
    old
}

/// A sum with one rate in another's place.
fn moved(sum: i128, old: Option<i64>, new: Option<i64>) -> i128
    requires { unsigned_abs sum ≤ MAX_PRESENT }
    ensures { result ≡ (sum -ℤ amount old) +ℤ amount new }
{
    sum - amount(old) + amount(new)
}

/// One rate in another's place.
fn replaced(present: Present, old: Option<i64>, new: Option<i64>) -> Present
    requires sum { unsigned_abs present.sum ≤ MAX_PRESENT }
    requires few { present.faults ≤ MAX_LEAVES * 16 }
    requires faults { fault old ≤ present.faults }
    ensures { result ≡ replaced present old new }
{
    Present {
        sum: moved(present.sum, old, new),
        faults: present.faults - fault(old) + fault(new),
    }
}

/// The same for the reward with a number.
pub(crate) fn replace(present: &mut Vec<Present>, reward: u32, old: Option<i64>, new: Option<i64>)
    requires reward { reward < length present.old.items }
    requires sum { unsigned_abs (present_at present.old.items reward).sum ≤ MAX_PRESENT }
    requires few { (present_at present.old.items reward).faults ≤ MAX_LEAVES * 16 }
    requires faults { fault old ≤ (present_at present.old.items reward).faults }
    ensures { present.new.items
        ≡ slice_set present.old.items reward (replaced (present_at present.old.items reward)
        old new) }
{
    let of_reward = present[reward as usize];
    present[reward as usize] = replaced(of_reward, old, new);
}

/// Adds a number to a reward's sum.
pub(crate) fn add(sums: &mut Vec<Option<i128>>, reward: u32, rated: Option<i64>)
    requires reward { reward < length sums.old.items }
    requires small { IsAtMost MAX_SUM (slice_index_or sums.old.items reward zero_sum) }
    ensures { sums.new.items
        ≡ slice_set sums.old.items reward (plus (slice_index_or sums.old.items reward zero_sum)
        rated) }
{
    let sum = sums[reward as usize];
    sums[reward as usize] = plus(sum, rated);
}
