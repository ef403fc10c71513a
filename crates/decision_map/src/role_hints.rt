//! Where roles were found before.

ghost use Rattle.std.specs.Prelude.{◌≡◌, find, AllPairs, ◌==◌, ◌<◌};
ghost use Rattle.line_table.specs.declared.roles.Role.{Role};

use line_table::Role;

/// Of how many addresses a place is kept.
const KEPT: usize = 64;

/// At which places the roles of some addresses were found. The role that stands there is compared with the
/// address that is asked for, so what is found is right whatever the places are.
pub struct RoleHints {
    places: [usize; KEPT],
}

// Written out: a derived drop is proved anew in each crate above.
impl Drop for RoleHints {
    fn drop(self) {
        let RoleHints { places: _ } = self;
    }
}

impl RoleHints {
    /// None was found.
    pub fn new() -> Self {
        RoleHints { places: [0; KEPT] }
    }

    /// The role of an address. Branches of a loop stand near each other, so most are found where they
    /// were found in the turn before.
    #[inline(always)]
    pub(crate) fn role_at(&mut self, roles: &[Role], pc: u32) -> Option<Role>
        requires { AllPairs (λ (first next : Role). first.address < next.address) roles.now }
        ensures { result ≡ find (λ role. role.address == pc) roles.now }
    {
        let kept = (pc / 4) as usize % KEPT;
        if let Some(role) = roles.get(self.places[kept]) {
            if role.address == pc {
                return Some(*role);
            }
        }
        self.search(kept, roles, pc)
    }

    /// The role of an address, looked for among all, and kept at this place.
    #[inline(never)]
    fn search(&mut self, kept: usize, roles: &[Role], pc: u32) -> Option<Role>
        requires rise { AllPairs (λ (first next : Role). first.address < next.address) roles.now }
        requires kept { kept < 64 }
        ensures { result ≡ find (λ role. role.address == pc) roles.now }
    {
        match roles.binary_search_by_key(&pc, |role| role.address) {
            Ok(at) => {
                self.places[kept] = at;
                Some(roles[at])
            }
            Err(_) => None,
        }
    }
}
