//! The rule over the two copies: every history that a thread knows begins the one that is shown.
use crate::edition::Edition;
use crate::shown::Shown;
use atomic_table::{Join, Split};
use crossbeam_utils::rule::{Outcome, Protocol};
use left_right::reader::Reader;
use left_right::writer::Writer;
use std::alloc::Global;
use std::marker::Model;
use std::sync::Arc;

/// What a thread knows: a history. No value of it is made.
pub struct KnownHistory {}

impl Model for KnownHistory {
    ghost use Rattle.std.specs.Prelude.{[]};
    ghost use Rattle.ix_live.specs.Histories.{Known};

    ghost Value = { Known };

    ghost view = { λ known. record {
      stop = [];
      history = record {
        book = record { number = 0; log_name = 0; cells_name = 0 };
        publishes = [];
      };
    } };
}

/// The rule.
pub struct Rises;

impl Protocol<Shown, Option<KnownHistory>> for Rises {
    ghost use Rattle.std.specs.Prelude.{None};
    ghost use Rattle.ix_live.specs.Identities.{AllAgree};

    ghost holds = { AllAgree };

    ghost first = { None };
}

/// A reader that looks knows the history that is shown from then on, and so does the writer that
/// changes what is shown.
pub struct Looking;

impl Outcome<Shown, Option<KnownHistory>> for Looking {
    ghost use Rattle.ix_live.specs.Identities.{Finds};

    ghost then = { Finds };
}

/// What the writer knows, it passes on and keeps.
pub struct Copied;

impl Split<Option<KnownHistory>> for Copied {
    ghost left = { λ known. known };

    ghost right = { λ known. known };
}

/// A reader takes what it is given.
pub struct Taken;

impl Join<Option<KnownHistory>> for Taken {
    ghost use Rattle.std.specs.Prelude.{None};

    ghost both = { λ known other. other };

    ghost spent = { None };
}

/// Shows editions.
pub type EditionWriter = Writer<Shown, Arc<Edition, Global>, Option<KnownHistory>, Rises>;

/// Takes the edition that is shown.
pub type EditionReader = Reader<Shown, Option<KnownHistory>, Rises>;
