//! Whether a row bears a fault.
ghost use Rattle.std.specs.Prelude.{◌≡◌, is_some};
ghost use Rattle.gtfs_rows.specs.LeftOut.{bearer};

use gtfs_rows::FeedFault;

/// Whether a row bears the fault: it is none of a file as a whole, no limit that is passed, and no
/// breach of the footpath law.
pub fn is_borne(fault: &FeedFault) -> bool
    ensures { result ≡ is_some (bearer fault.now) }
{
    match fault {
        FeedFault::BadNumber(_)
        | FeedFault::BadTime(_)
        | FeedFault::BadDate(_)
        | FeedFault::BadCode(_)
        | FeedFault::EmptyId(_)
        | FeedFault::DuplicateId(_)
        | FeedFault::UnknownStop(_)
        | FeedFault::UnknownTrip(_)
        | FeedFault::DuplicateSequence(_)
        | FeedFault::NoEndTime(_)
        | FeedFault::TimeRunsBack(_)
        | FeedFault::NotAPlatform(_)
        | FeedFault::DuplicateTransfer(_)
        | FeedFault::BeyondDay(_) => true,
        FeedFault::MissingFile(_)
        | FeedFault::FileTooLarge(_)
        | FeedFault::NotUtf8(_)
        | FeedFault::MissingColumn(_)
        | FeedFault::OpenFootpaths(..)
        | FeedFault::LongFootpath(..)
        | FeedFault::TooMany(..)
        | FeedFault::FarFootpath(..) => false,
    }
}
