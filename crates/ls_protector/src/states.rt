//! The states of a protector. Each type says what is known of its parts, whatever becomes of other
//! protectors.
ghost use Rattle.std.specs.Prelude.{◌≡◌, []};

use ls_board::Plan;
use ls_formats::Parts;
use std::marker::Model;

/// A plan that touches its own parts alone. Nothing was done. It has to be spent.
pub struct Draft {
    pub(crate) parts: Parts,
    pub(crate) plan: Plan,
}

impl Model for Draft {
    ghost use Rattle.ls_board.specs.Reach.{AllTouchOnly};
    ghost use Rattle.ls_protector.specs.Parts.{reach_of_parts};
    ghost use Rattle.ls_protector.specs.Steps.{Drafted};

    ghost Value = { Drafted };

    ghost view = { λ d. record { parts = d.parts; plan = d.plan } };

    ghost invariant = { λ d. AllTouchOnly (reach_of_parts d.parts) d.plan };
}

/// The plan was done. Nothing is promised of what a crash leaves. It has to be spent.
pub struct Staged {
    pub(crate) parts: Parts,
}

impl Model for Staged {
    ghost use Rattle.ls_formats.specs.declared.parts.Parts.{Parts};

    ghost Value = { Parts };

    ghost view = { λ s. s.parts };
}

/// Its files, slot, key and Gatekeeper's record are in every image as they stood when it was
/// settled or found, until an action touches them.
#[derive(Drop)]
pub struct Durable {
    pub(crate) parts: Parts,
}

impl Model for Durable {
    ghost use Rattle.ls_formats.specs.declared.parts.Parts.{Parts};

    ghost Value = { Parts };

    ghost view = { λ d. d.parts };
}

/// It is durable, and the committed record names it until a commit leaves it out.
#[derive(Drop)]
pub struct Named {
    pub(crate) parts: Parts,
}

impl Model for Named {
    ghost use Rattle.ls_formats.specs.declared.parts.Parts.{Parts};

    ghost Value = { Parts };

    ghost view = { λ n. n.parts };
}

/// No committed record names it. Files may be left: the names of its parts are theirs. It has to be
/// spent.
pub struct Retired {
    pub(crate) parts: Parts,
}

impl Model for Retired {
    ghost use Rattle.ls_formats.specs.declared.parts.Parts.{Parts};

    ghost Value = { Parts };

    ghost view = { λ r. r.parts };
}

impl Draft {
    ghost use Rattle.ls_board.specs.Reach.{AllTouchOnly};
    ghost use Rattle.ls_protector.specs.Parts.{reach_of_parts};

    /// A draft of these parts, by a plan that touches nothing else.
    pub fn of(parts: Parts, plan: Plan) -> Draft
        requires touches { AllTouchOnly (reach_of_parts parts) plan }
        ensures same { result ≡ record { parts = parts; plan = plan } }
    {
        Draft { parts, plan }
    }

    /// The plan, to look at.
    pub fn plan(&self) -> &Plan
        ensures same { result.now ≡ self.now.plan }
        ensures touches { AllTouchOnly (reach_of_parts self.now.parts) self.now.plan }
    {
        &self.plan
    }

    /// Lets it go, with nothing done.
    pub fn discard(self) {
        let Draft { parts: _, plan: _ } = self;
    }
}

impl Staged {
    /// Lets it go, where another action of its command failed. The next opening sweeps it.
    pub fn abandon(self) {
        let Staged { parts: _ } = self;
    }
}

impl Named {
    /// Its parts, to look at.
    pub fn parts(&self) -> &Parts
        ensures same { result.now ≡ self.now }
    {
        &self.parts
    }
}

impl Retired {
    /// Its parts, to look at. Their names are the files that are left.
    pub fn parts(&self) -> &Parts
        ensures same { result.now ≡ self.now }
    {
        &self.parts
    }

    /// Spends it when none of its files is left.
    pub fn spent(self)
        requires empty { self.names ≡ [] }
    {
        let Retired { parts: _ } = self;
    }

    /// Spends it with what is left of it. The next opening sweeps that.
    pub fn abandon(self) {
        let Retired { parts: _ } = self;
    }
}
