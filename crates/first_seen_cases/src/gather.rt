// How many distinct elements a list has, found with lent rows that are blank again on every way out.
ghost use Rattle.std.specs.Prelude.{◌≡◌, [], length};
ghost use Rattle.first_seen.specs.Cleared.{cleared};
ghost use Rattle.first_seen.specs.Seen.{gathered};
ghost use Rattle.first_seen_cases.specs.Told.{told};

use first_seen::{Blank, Clearing, FirstSeen, Full, Same};

pub fn gather<T: Same + Blank>(rows: &mut [T], xs: &[T]) -> Result<usize, Full>
    ensures value { result ≡ told (gathered T.alike (length rows.old) xs.now []) }
    ensures blank { rows.new ≡ cleared T.blank rows.old }
{
    let guard = Clearing { rows };
    let mut list = FirstSeen::over(guard.rows, 0);
    for x in xs {
        list.note(*x)?;
    }
    Ok(list.len())
}
