// The monthly sheet: for many roles over one table, how many are clean, break each condition and are refused, how often each privilege is allowed,
// forbidden and unset, and which are allowed most often. Contracts cite specs/Sheets and specs/Answers.
// Arrays have a fixed size: nothing here allocates.
#![tactic(auto)]

ghost use Rattle.std.specs.Prelude.{◌≡◌};
ghost use Rattle.table.specs.Refusals.{number_of, place_of};
ghost use Rattle.sheet.specs.Answers.{no_figures, refusal, with_leaders, MonthAnswer};

use leaders::{Leaders, leaders_of};
use table::{Refusal, check_ordered};

mod counts;
mod roles;

use roles::count_roles;

// How many roles are clean, break condition 1, 2 and 3 somewhere, and are refused.
#[repr(C)]
#[derive(Clone, Copy)]
pub struct Figures {
    pub clean: u32,
    pub insert_delete: u32,
    pub chain: u32,
    pub cycle: u32,
    pub refused: u32,
}

// What a call answers, as C sees it, and no Result, since sheets that were refused can be added too: number and place; the figures; how many leaders there
// are, and which, 0 in unused places.
#[repr(C)]
#[derive(Clone, Copy)]
pub struct Sheet {
    pub number: usize,
    pub place: usize,
    pub figures: Figures,
    pub leader_count: u32,
    pub leaders: [usize; 3],
}

// All figures 0.
pub fn no_figures() -> Figures
    ensures { result ≡ no_figures }
{
    Figures {
        clean: 0,
        insert_delete: 0,
        chain: 0,
        cycle: 0,
        refused: 0,
    }
}

// A refusal: all but number and place is 0.
pub fn refused(number: usize, place: usize) -> Sheet
    ensures { result ≡ refusal number place }
{
    Sheet {
        number,
        place,
        figures: no_figures(),
        leader_count: 0,
        leaders: [0usize; 3],
    }
}

impl From<Refusal> for Sheet {
    ghost from_gives = { λ why sheet. sheet ≡ refusal (number_of why) (place_of why) };

    fn from(why: Refusal) -> Sheet {
        refused(usize::from(why.number()), why.place())
    }
}

// A sheet that is done.
pub fn done_with(figures: Figures, leaders: Leaders) -> Sheet
    ensures { result ≡ with_leaders figures leaders }
{
    let Leaders { count, at } = leaders;
    Sheet {
        number: 0,
        place: 0,
        figures,
        leader_count: count,
        leaders: at,
    }
}

// Counts the roles of a month, whose marks stand one after another: refuses with 1 to 10, 12 or 19, or writes three numbers for each privilege into the
// counts, whose rest it keeps, and answers the figures and the leaders.
pub fn month_sheet(words: &[u16], roles: u32, marks: &[u8], counts: &mut [u32]) -> Sheet
    ensures { MonthAnswer words.now roles marks.now counts.old result counts.new }
{
    let mut order = [0u8; 256];
    let v = match check_ordered(words, &mut order) {
        Ok(v) => v,
        Err(refusal) => return Sheet::from(refusal),
    };
    if marks.len() != roles as usize * v {
        return Sheet::from(Refusal::MarksLength);
    }
    let n = 3 * v;
    if counts.len() < n {
        return Sheet::from(Refusal::ResultLength);
    }
    let figures = count_roles(words, roles, marks, v, &order, &mut counts[0..n]);
    done_with(figures, leaders_of(&counts[0..n]))
}
