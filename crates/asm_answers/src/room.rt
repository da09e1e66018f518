// The table at the front of the lent words, where there is room for it [S Numbers the host sees] [S The table].
ghost use Rattle.std.specs.Prelude.{◌≡◌, ◌++◌, ◌≤◌, drop, length};
ghost use Rattle.asm_answers.specs.Room.{Placed};

// The words of `from` stand at the front of `to`.
fn copy(from: &[u32], to: &mut [u32])
    requires { length from.now ≤ length to.old }
    ensures { to.new ≡ from.now ++ drop (length from.now) to.old }
{
    to[..from.len()].copy_from_slice(from);
}

// Whether the draft has room in the lent words; if so, it stands at their front, else none of them changes.
pub fn is_placed(draft: &[u32], table: &mut [u32]) -> bool
    ensures { Placed draft.now table.old table.new result }
{
    if table.len() < draft.len() {
        return false;
    }
    copy(draft, table);
    true
}
