// A bounded stack over a caller's slice, for every kind of entry.
ghost use Rattle.std.specs.Prelude.{◌≡◌, ℕ, ◌+◌, ◌-◌, length, is_ok, is_some, if◌then◌else◌, nat_lt, slice_set, Ok, Err};
ghost use Rattle.values.specs.Stacks.{OnTop};

/// A stack over cells that the caller lends. The entries are the first `height` of the cells, and
/// the last of them is the top. A popped cell keeps what it holds until something is pushed there.
#[derive(Drop)]
pub struct Stack<'a, T> {
    pub cells: &'a mut [T],
    pub height: usize,
}

impl<T: Copy> Stack<'_, T> {
    /// Puts x on top. Where every cell is taken, x comes back in the error, and all stays as it is.
    pub fn push(&mut self, x: T) -> Result<(), T>
        ensures same { self.new.cells.ghost_name ≡ self.old.cells.ghost_name }
        ensures said { result
            ≡ (if nat_lt self.old.height (length self.old.cells.now) then Ok tt else Err x) }
        ensures height { self.new.height
            ≡ (if is_ok result then self.old.height + 1 else self.old.height) }
        ensures cells { self.new.cells.now
            ≡ (if is_ok result then slice_set self.old.cells.now self.old.height x
            else self.old.cells.now) }
    {
        if self.height >= self.cells.len() {
            return Err(x);
        }
        let h = self.height;
        self.cells[h] = x;
        self.height = h + 1;
        Ok(())
    }

    /// Takes the top off, and leaves the cells as they are. None, with nothing altered, where there
    /// is no entry, or where `height` says more entries than there are cells.
    pub fn pop(&mut self) -> Option<T>
        ensures same { self.new.cells.ghost_name ≡ self.old.cells.ghost_name }
        ensures cells { self.new.cells.now ≡ self.old.cells.now }
        ensures height { self.new.height
            ≡ (if is_some result then self.old.height - 1 else self.old.height) }
        ensures said { OnTop self.old.cells.now self.old.height result }
    {
        if self.height == 0 || self.height > self.cells.len() {
            return None;
        }
        let top = self.height - 1;
        self.height = top;
        Some(self.cells[top])
    }
}
