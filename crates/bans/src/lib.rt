// The ban list that comes beside an order: its check, which roads it lists, and bytes marked from it.
#![tactic(auto)]

ghost use Rattle.std.specs.Prelude.{◌≡◌, length};
ghost use Rattle.replies.specs.First.{first_of};
ghost use Rattle.replies.specs.Told.{succeeded, told_check};
ghost use Rattle.bans.specs.Bans.{closed_in, listed_in};
ghost use Rattle.bans.specs.BanList.{ban_tests, Rises, AllBelow, Clear, Marked};

use replies::Refusal;

// The check of a ban list, on a map of so many roads. Before the first number stands 0: what is not above it is 0, and
// wrong.
pub fn check_bans(bans: &[u32], roads: u32) -> Result<(), Refusal>
    ensures { told_check result ≡ first_of (ban_tests roads bans.now) (succeeded 0 0) }
{
    let mut before = 0;
    for (i, road) in bans.iter().enumerate() {
        if *road <= before || roads < *road {
            return Err(Refusal::BadBans(i + 1));
        }
        before = *road;
    }
    Ok(())
}

// Whether a rising list has road r.
pub fn is_listed(bans: &[u32], r: u32) -> bool
    requires { Rises bans.now }
    ensures { result ≡ listed_in bans.now r }
{
    bans.binary_search(&r).is_ok()
}

// Marks the byte of each road of the list, where none is marked yet.
pub fn mark(bans: &[u32], closed: &mut [u8])
    requires all_below { AllBelow (length closed.old) bans.now }
    requires clear { Clear closed.old }
    ensures { Marked bans.now closed.old closed.new }
{
    for road in bans {
        closed[*road as usize] = 1;
    }
}

// Whether the byte of road r is marked; a road behind the bytes is not.
pub fn is_closed(closed: &[u8], r: u32) -> bool
    ensures { result ≡ closed_in closed.now r }
{
    let at = r as usize;
    if at < closed.len() {
        return closed[at] != 0;
    }
    false
}
