// Job words whose lists of links and times were tested.
ghost use Rattle.words.specs.Lists.{Known, Sends, Timely};

use crate::job::JobWords;
use crate::layout::LINK_ENTRIES;

pub(crate) mod calls;

// The words, and the sender of each link by its number.
#[derive(Drop)]
pub(crate) struct TestedJob<'a> {
    job: JobWords<'a>,
    senders: [u32; LINK_ENTRIES],
    ghost sends: { Sends job.words.now senders },
    ghost known: { Known job.words.now },
    ghost timely: { Timely job.words.now },
}
