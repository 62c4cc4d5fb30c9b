// Vacant rows in a mask, row 1 in bit 0.
ghost use Rattle.std.specs.Prelude.{◌≡◌, true, false, if◌then◌else◌, Some, None, ◌==◌, nat_eq};
ghost use Rattle.rules.specs.Choosers.{vacant_in, first_row};

use rules::rack::MOST_ROWS;

// Whether the row is one of 1 to 16 and vacant; then the mask is not empty.
pub fn vacant_in(mask: u16, row: u32) -> bool
    ensures is { result ≡ vacant_in mask row }
    ensures some { result ≡ true → (mask == 0) ≡ false }
{
    (1..=MOST_ROWS).contains(&row) && (mask >> (row - 1)) & 1 == 1
}

// The lowest vacant row, if any is vacant.
pub fn lowest_in(mask: u16) -> Option<u32>
    ensures { result ≡ (if nat_eq mask 0 then None else Some (first_row (vacant_in mask) 1 16)) }
{
    if mask == 0 {
        return None;
    }
    Some(mask.trailing_zeros() + 1)
}
