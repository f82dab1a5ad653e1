// The cells that the arguments of a run take.
ghost use Rattle.std.specs.Prelude.{◌≡◌, ◌-◌, ◌^◌, ◌<◌, All, length, nat_lt, Some, None, if◌then◌else◌};
ghost use Rattle.cc_base.specs.Cells.{arguments_cells, arguments_pass, any_long};

use cc_base::Text;

// An argument is longer than a string can be.
fn any_long(arguments: &[Text]) -> bool
    ensures { result ≡ any_long arguments.now }
{
    for text in arguments {
        if text.len() > 2_147_483_647 {
            return true;
        }
    }
    false
}

// The cells of the arguments, none where they are more than there are.
fn cells_of(arguments: &[Text], cells: u32) -> Option<u64>
    requires count { length arguments.now < 2 ^ 32 }
    requires texts { All (λ text. length text < 2 ^ 32) arguments.now }
    ensures { result ≡ (if nat_lt cells (arguments_cells arguments.now) then None else Some (arguments_cells arguments.now)) }
{
    let most = u64::from(cells);
    let mut total = 2 + arguments.len() as u64;
    for text in arguments {
        if total > most {
            return None;
        }
        total += 2 + (text.len() as u64 + 3) / 4;
    }
    if total > most { None } else { Some(total) }
}

/// The cells that are left once the arguments are made, none exactly where there are too few.
pub fn cells_left(arguments: &[Text], cells: u32) -> Option<u32>
    requires count { length arguments.now < 2 ^ 32 }
    requires texts { All (λ text. length text < 2 ^ 32) arguments.now }
    ensures { result ≡ (if arguments_pass cells arguments.now then None else Some (cells - arguments_cells arguments.now)) }
{
    if any_long(arguments) {
        return None;
    }
    match cells_of(arguments, cells) {
        Some(taken) => Some((u64::from(cells) - taken) as u32),
        None => None,
    }
}
