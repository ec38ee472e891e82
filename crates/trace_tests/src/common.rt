// What the tests of all sources share.
use trace::fault::Fault;
use trace::record::{Record, Sample};
use trace::source::Source;

// How many records come before the end, of eight at most; or the fault that comes before it.
pub(crate) fn count_of<S: Source>(source: &mut S) -> Result<usize, Fault> {
    for n in 0..8 {
        if source.next()?.is_none() {
            return Ok(n);
        }
    }
    Ok(8)
}

pub(crate) fn call(function: u16) -> Record {
    Record::Call { function }
}

pub(crate) fn unwind(count: u16) -> Record {
    Record::Unwind { count }
}

pub(crate) fn sample(step: u32, weight: u32, site: u16, region: u8) -> Record {
    Record::Sample(Sample {
        step,
        weight,
        site,
        region,
    })
}
