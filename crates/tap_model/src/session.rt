//! The session.
ghost use Rattle.std.specs.Prelude.{◌≡◌};

use tap_base::Text;

/// The moment at which commands are performed, in seconds since 1970-01-01T00:00:00Z, and the user
/// who gives them.
#[derive(Drop)]
pub struct Session {
    pub moment: Option<i64>,
    pub user: Option<Text>,
}

impl Session {
    ghost use Rattle.tap_model.specs.Sessions.{no_session};

    /// Returns a session without a moment and without a user.
    pub fn new() -> Session
        ensures { result ≡ no_session }
    {
        Session {
            moment: None,
            user: None,
        }
    }
}
