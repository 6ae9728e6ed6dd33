// A session as C has it (X1; include/meanderpeg.h): three numbers, by value.
#![tactic(auto)]

ghost use Rattle.std.specs.Prelude.{◌≡◌};
ghost use Rattle.c_session.specs.Numbers.{no_session, session_named, numbers_of};

use update_session::Session;

// The kind is 0 for none, 1 Regular, 2 Staging, 3 Trial, 4 Fallback, 5 Restart; bank and set are Staging's (S1), 0 with
// any other kind that is made (X1).
#[repr(C)]
#[derive(Clone, Copy)]
pub struct SessionNumbers {
    pub kind: u32,
    pub bank: u32,
    pub set: u32,
}

// What start-up and repair answer where there is no session (X4).
pub fn no_session() -> SessionNumbers
    ensures { result ≡ no_session }
{
    SessionNumbers {
        kind: 0,
        bank: 0,
        set: 0,
    }
}

// The session that the numbers name. Where they name none, Restart, which no call is named for (X2).
impl From<SessionNumbers> for Session {
    ghost from_gives = { λ numbers session. session ≡ session_named numbers };

    #[tactic(auto, unfolding(crate::specs::Numbers::session_named))]
    fn from(numbers: SessionNumbers) -> Session {
        match numbers.kind {
            1 => Session::Regular,
            2 => Session::Staging {
                bank: numbers.bank,
                set: numbers.set,
            },
            3 => Session::Trial,
            4 => Session::Fallback,
            _ => Session::Restart,
        }
    }
}

// The way back: bank and set are 0 but for Staging.
impl From<Session> for SessionNumbers {
    ghost from_gives = { λ session numbers. numbers ≡ numbers_of session };

    fn from(session: Session) -> SessionNumbers {
        let (kind, bank, set) = match session {
            Session::Regular => (1, 0, 0),
            Session::Staging { bank, set } => (2, bank, set),
            Session::Trial => (3, 0, 0),
            Session::Fallback => (4, 0, 0),
            Session::Restart => (5, 0, 0),
        };
        SessionNumbers { kind, bank, set }
    }
}
