// The local check: whether the records of a table in order are a grown mesh, in one pass of at most 12 lookups a record.
//
// `all_pass` tests a table, record by record, each by those it hangs on. It is for the proved floors above and asks for what it stands on.
// The promises cite growth's specs/Local at `sheet_of` (specs/Sheet); what is looked up once for two of its tests is in specs/Parents.
#![tactic(auto)]

mod checks;
mod lookups;
mod parents;
mod places;
mod steps;
mod told;

pub use checks::all_pass;
