// Plans worked by hand, as a check on the definitions that the contracts cite.
ghost use Rattle.std.specs.Prelude.{◌≡◌};
ghost use Rattle.network.specs.Worked.{HandWorked};

// How many plans there are: the central call and the check give just what was worked out for each.
pub fn hand_worked() -> u8
    ensures value { result ≡ 10 }
    ensures agree { HandWorked }
{
    10
}
