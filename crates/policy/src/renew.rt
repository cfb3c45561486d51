// Renewing the child of a star: by insert and delete, or by the exchange where there is one. Contracts cite specs/Steps/Renewing.
ghost use Rattle.std.specs.Prelude.{◌≤◌};
ghost use Rattle.table.specs.Steps.Found.{Tells};
ghost use Rattle.policy.specs.Steps.Renewing.{BothIn, ExchangeMark, RenewedIn, RenewalIn};

use super::marks::mark_at;
use table::privilege::{Numbering, deletion, exchange, insertion, is_exchangeable};

// Whether a star's child can be renewed: no; yes; or yes, but the exchange is forbidden where insert and delete are both allowed.
#[derive(Clone, Copy)]
pub enum Renewal {
    Shut,
    Barred,
    Open,
}

// Are insert and delete both allowed?
pub fn both_allowed(marks: &[u8], n: Numbering) -> bool
    requires { n.first ≤ 4096 }
    ensures { Tells (BothIn marks.now n) result }
{
    mark_at(marks, insertion(n)) == 1 && mark_at(marks, deletion(n)) == 1
}

// The mark of the exchange; 0 where there is none.
fn exchange_mark(marks: &[u8], n: Numbering) -> u8
    requires { n.first ≤ 4096 }
    ensures { ExchangeMark marks.now n result }
{
    if is_exchangeable(n) {
        mark_at(marks, exchange(n))
    } else {
        0
    }
}

// Can the child of a star be renewed?
pub fn is_renewed(marks: &[u8], n: Numbering) -> bool
    requires { n.first ≤ 4096 }
    ensures { Tells (RenewedIn marks.now n) result }
{
    both_allowed(marks, n) || exchange_mark(marks, n) == 1
}

// The same, and whether the exchange is forbidden where insert and delete are both allowed.
pub fn renewal_of(marks: &[u8], n: Numbering) -> Renewal
    requires { n.first ≤ 4096 }
    ensures { RenewalIn marks.now n result }
{
    let own = exchange_mark(marks, n);
    if both_allowed(marks, n) {
        if own == 2 {
            Renewal::Barred
        } else {
            Renewal::Open
        }
    } else if own == 1 {
        Renewal::Open
    } else {
        Renewal::Shut
    }
}
