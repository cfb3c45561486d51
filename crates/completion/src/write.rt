// Writing the decided marks of a type by their own, and the exchange of a star. Contracts cite specs/Steps/Writing.
ghost use Rattle.std.specs.Prelude.{◌≡◌, true, ◌⊎◌, ◌≤◌, ◌<◌, length};
ghost use Rattle.table.specs.Steps.Numbering.{exchange_in, ExchangeableIn};
ghost use Rattle.policy.specs.Marks.{Allowed};
ghost use Rattle.policy.specs.Steps.Writing.{RangeWritten};
ghost use Rattle.completion.specs.Steps.Writing.{ExchangeWritten};

use policy::renew::both_allowed;
use policy::write::decided;
use table::privilege::{Numbering, exchange, is_exchangeable};

// Allows the exchange of a star, where there is one and insert and delete are both allowed.
pub fn write_exchange(m: &mut [u8], n: Numbering)
    requires { (n.first ≤ 4096) × (ExchangeableIn n → exchange_in n < length m.old) }
    ensures { ExchangeWritten n m.old m.new }
{
    if is_exchangeable(n) && both_allowed(m, n) {
        m[exchange(n)] = 1;
    }
}

// Decides the marks from one number up to another: all allowed, or those that are.
pub fn write_range(m: &mut [u8], all: bool, from: usize, until: usize)
    requires { until ≤ length m.old }
    ensures { RangeWritten (λ p. (all ≡ true) ⊎ Allowed m.old p) from until m.old m.new }
{
    for p in from..until {
        m[p] = decided(all || m[p] == 1);
    }
}
