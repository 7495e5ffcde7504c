// Guards over lent rows: whatever way a call ends, the rows are blank then.
ghost use Rattle.std.specs.Prelude.{◌≡◌};
ghost use Rattle.first_seen.specs.Cleared.{cleared};

// A kind of row that has a blank value. Not `Default`, which says only what holds of a value, where the guards name it.
pub trait Blank: Copy {
    ghost blank: { Self };

    fn blank() -> Self
        ensures { result ≡ blank };
}

// Makes every row blank.
pub fn clear<T: Blank>(rows: &mut [T])
    ensures { rows.new ≡ cleared T.blank rows.old }
{
    for row in rows.iter_mut() {
        *row = T::blank();
    }
}

// Working rows: blank again on every way out. A type of its own beside the next, since these rows can never be kept.
pub struct Clearing<'a, T: Blank> {
    pub rows: &'a mut [T],
}

impl<T: Blank> Drop for Clearing<'_, T> {
    fn drop(self)
        ensures { self.exit.0.now ≡ cleared T.blank self.entry.rows.now }
    {
        clear(self.rows);
        let Clearing { rows: _ } = self;
    }
}

// A buffer that is written: blank on every way out but that by `done`, which keeps it as it is.
pub struct Unfinished<'a, T: Blank> {
    pub out: &'a mut [T],
}

impl<T: Blank> Drop for Unfinished<'_, T> {
    fn drop(self)
        ensures { self.exit.0.now ≡ cleared T.blank self.entry.out.now }
    {
        clear(self.out);
        let Unfinished { out: _ } = self;
    }
}

impl<T: Blank> Unfinished<'_, T> {
    // The work is done: what was written stays.
    pub fn done(self)
        ensures { self.exit.0.now ≡ self.entry.out.now }
    {
        let Unfinished { out: _kept } = self;
    }
}
