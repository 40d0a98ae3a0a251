// What a call came to, as the C interface gives it: its number is given back, and what else it tells goes to the lent numbers, 0 where there is
// nothing to tell.
ghost use Rattle.std.specs.Prelude.{◌≡◌};
ghost use Rattle.lattice.specs.Refusals.{number_told, fault_number, fault_line, stop_number, stop_done};
ghost use Rattle.writers.specs.Files.{bytes_told};

use lattice::{DONE, Fault, Refusal, Stopped};

// The bytes that a file has.
pub fn give_bytes(outcome: Result<u64, Refusal>, written: &mut u64) -> u8
    ensures number { result ≡ number_told outcome }
    ensures written_after { written.new ≡ bytes_told outcome }
{
    match outcome {
        Ok(bytes) => {
            *written = bytes;
            DONE
        }
        Err(why) => {
            *written = 0;
            why.number()
        }
    }
}

// The line of a file that is at fault.
pub fn give_line(outcome: Result<(), Fault>, line: &mut u64) -> u8
    ensures number { result ≡ fault_number outcome }
    ensures line_after { line.new ≡ fault_line outcome }
{
    match outcome {
        Ok(()) => {
            *line = 0;
            DONE
        }
        Err(fault) => {
            *line = fault.line;
            fault.why.number()
        }
    }
}

// How many steps were made.
pub fn give_done(outcome: Result<u64, Stopped>, done: &mut u64) -> u8
    ensures number { result ≡ stop_number outcome }
    ensures done_after { done.new ≡ stop_done outcome }
{
    match outcome {
        Ok(made) => {
            *done = made;
            DONE
        }
        Err(stopped) => {
            *done = stopped.done;
            stopped.why.number()
        }
    }
}
