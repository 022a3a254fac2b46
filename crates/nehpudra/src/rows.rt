ghost use Rattle.std.specs.Prelude.{◌≡◌};
ghost use Rattle.host_rows.specs.Row.{made_server, made_spaced};
ghost use Rattle.host_gates.specs.Answers.{status};
ghost use Rattle.nehpudra.specs.Exports.{row_left};

use host_gates::answers::status;
use host_rows::HostRow;
use measures::refusal::Refusal;

// Makes a server row as at its beginning. The answer is 0, or the number of the refusal, and then the row stays as it is.
#[unsafe(no_mangle)]
pub extern "C" fn nehpudra_server_row(
    row: &mut HostRow,
    rate: u64,
    ceiling: u64,
    threshold: u64,
) -> u64
    ensures answer { result ≡ status (made_server rate ceiling threshold) }
    ensures row { row.new ≡ row_left (made_server rate ceiling threshold) row.old }
{
    write_row(row, HostRow::server(rate, ceiling, threshold))
}

// The same of a spaced row.
#[unsafe(no_mangle)]
pub extern "C" fn nehpudra_spaced_row(row: &mut HostRow, rate: u64) -> u64
    ensures answer { result ≡ status (made_spaced rate) }
    ensures row { row.new ≡ row_left (made_spaced rate) row.old }
{
    write_row(row, HostRow::spaced(rate))
}

fn write_row(row: &mut HostRow, made: Result<HostRow, Refusal>) -> u64
    ensures answer { result ≡ status made }
    ensures row { row.new ≡ row_left made row.old }
{
    match made {
        Ok(new) => {
            *row = new;
            status(Ok(()))
        }
        Err(refusal) => status(Err(refusal)),
    }
}
