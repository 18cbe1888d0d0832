// A disk in memory, on which listed calls fail, or all from one on. It keeps the list of its changes.

ghost use Rattle.std.specs.Prelude.{◌≡◌, ◌<◌, ◌≤◌, ℕ, Some, None, Option, List, true, length, option_map, string_bytes, vec_len, IfOk, IsErrOf, OnOk, OnErr};
ghost use Rattle.outside_io.specs.Disk.{Poured};
ghost use Rattle.outside_io.specs.Found.{IsFound};
ghost use Rattle.outside_io.specs.Log.{AppendedFile, is_named, lead_of, log_contents, MadeFile, Pushed, RemovedFile, RenamedFile, Since, since_now, since_only, taken_by, text_of};

use crate::disk::tally;
use crate::{Disk, Found, ReadFault, WriteFault};
use std::alloc::{AllocError, Global};

/// A change: a place has these bytes or nothing, and another, if one is named, has nothing.
#[derive(Drop)]
pub(crate) struct Change {
    place: String,
    has: Option<Vec<u8>>,
    gone: Option<String>,
}

/// Files under places, in memory. Each call is done at once, and for good. The calls whose numbers are listed fail, and so do
/// all from the number `stops` on: what is there then is what a crash at that call left. Calls are numbered from 0.
///
/// Each name leads to the place of that name, except for the name of a device, if there is one.
#[derive(Drop)]
pub struct MemoryDisk {
    alloc: Global,
    log: Vec<Change>,
    made: Option<String>,
    device: Option<String>,
    poured: Vec<u8>,
    calls: u64,
    fails: Vec<u64>,
    stops: u64,
    refusals: u64,
}

impl MemoryDisk {
    ghost use Rattle.std.specs.Prelude.{◌≡◌, [], option_map};
    ghost use Rattle.outside_io.specs.Log.{log_contents};

    /// An empty disk without a device.
    pub fn new(alloc: Global, fails: Vec<u64>, stops: u64) -> MemoryDisk
        ensures { result.log.items ≡ [] }
    {
        MemoryDisk {
            alloc,
            log: Vec::new(alloc),
            made: None,
            device: None,
            poured: Vec::new(alloc),
            calls: 0,
            fails,
            stops,
            refusals: 0,
        }
    }

    /// Gives a name to the device. This counts as no call.
    pub fn name_device(&mut self, name: String) {
        self.device = Some(name);
    }

    /// The bytes that the device took.
    pub fn poured(&self) -> &[u8]
        ensures { result.now ≡ self.now.poured.items }
    {
        self.poured.as_slice()
    }

    /// The bytes under a place, or `None` if nothing is there. This counts as no call.
    pub fn bytes_of(&self, place: &str) -> Option<&[u8]>
        ensures { option_map (λ bytes. bytes.now) result ≡ log_contents self.now.log.items place.now }
    {
        latest(&self.log, place)
    }
}

// Counts a call. Answers whether it is made to fail.
fn refuses(calls: &mut u64, fails: &[u64], stops: u64) -> bool {
    let number = *calls;
    *calls = number.saturating_add(1);
    number >= stops || fails.contains(&number)
}

// The bytes under a place after these changes.
fn latest<'l>(log: &'l [Change], place: &str) -> Option<&'l [u8]>
    ensures { option_map (λ b. b.now) result ≡ log_contents log.now place.now }
{
    let mut at = log.len();
    while at > 0 {
        at -= 1;
        let change = &log[at];
        if change.place.as_str() == place {
            return match &change.has {
                Some(bytes) => Some(bytes.as_slice()),
                None => None,
            };
        }
        if let Some(gone) = &change.gone {
            if gone.as_str() == place {
                return None;
            }
        }
    }
    None
}

// Adds a change.
fn push(
    alloc: Global,
    log: &mut Vec<Change>,
    place: &str,
    has: Option<Vec<u8>>,
    gone: Option<String>,
) -> Result<(), AllocError>
    ensures pushed { OnOk result (Pushed place.now (option_map (λ b. b.items) has) (option_map (λ s. string_bytes s) gone) log.old.items log.new.items) }
    ensures same { OnErr result (log.new.items ≡ log.old.items) }
{
    let place = String::from_str(alloc, place)?;
    log.push(Change { place, has, gone })?;
    Ok(())
}

// Makes a new, empty file beside a place.
fn make_file(
    alloc: Global,
    log: &mut Vec<Change>,
    made: &mut Option<String>,
    beside: &str,
    refused: bool,
) -> Result<(), WriteFault>
    ensures made { OnOk result (MadeFile beside.now (text_of made.new) log.old.items log.new.items) }
    ensures same { OnErr result (log.new.items ≡ log.old.items) }
{
    if refused {
        return Err(WriteFault::Failed);
    }
    let mut name = String::from_str(alloc, beside)?;
    name.push_str("~")?;
    if latest(log, name.as_str()).is_some() {
        return Err(WriteFault::Failed);
    }
    push(alloc, log, name.as_str(), Some(Vec::new(alloc)), None)?;
    *made = Some(name);
    Ok(())
}

// Adds bytes to the file that is being made.
fn append_file(
    alloc: Global,
    log: &mut Vec<Change>,
    made: &Option<String>,
    bytes: &[u8],
    refused: bool,
) -> Result<(), WriteFault>
    ensures appended { OnOk result (AppendedFile bytes.now (text_of made.now) log.old.items log.new.items) }
    ensures same { OnErr result (log.new.items ≡ log.old.items) }
{
    if refused {
        return Err(WriteFault::Failed);
    }
    let Some(name) = made else {
        return Err(WriteFault::Failed);
    };
    let Some(was) = latest(log, name.as_str()) else {
        return Err(WriteFault::Failed);
    };
    let mut all = Vec::from_slice(alloc, was)?;
    all.extend_from_slice(bytes)?;
    Ok(push(alloc, log, name.as_str(), Some(all), None)?)
}

// Puts the file that is being made under a place.
fn rename_file(
    alloc: Global,
    log: &mut Vec<Change>,
    made: &mut Option<String>,
    to: &str,
    refused: bool,
) -> Result<(), WriteFault>
    ensures renamed { OnOk result (RenamedFile to.now (text_of made.old) log.old.items log.new.items) }
    ensures same { OnErr result (log.new.items ≡ log.old.items) }
    ensures kept { OnErr result (text_of made.new ≡ text_of made.old) }
{
    if refused {
        return Err(WriteFault::Failed);
    }
    let Some(name) = &*made else {
        return Err(WriteFault::Failed);
    };
    let Some(bytes) = latest(log, name.as_str()) else {
        return Err(WriteFault::Failed);
    };
    let copy = Vec::from_slice(alloc, bytes)?;
    let gone = String::from_str(alloc, name.as_str())?;
    push(alloc, log, to, Some(copy), Some(gone))?;
    *made = None;
    Ok(())
}

// Removes the file that is being made.
fn remove_file(
    alloc: Global,
    log: &mut Vec<Change>,
    made: &mut Option<String>,
    refused: bool,
) -> Result<(), WriteFault>
    ensures removed { OnOk result (RemovedFile (text_of made.old) log.old.items log.new.items) }
    ensures same { OnErr result (log.new.items ≡ log.old.items) }
{
    if refused {
        return Err(WriteFault::Failed);
    }
    let Some(name) = &*made else {
        return Err(WriteFault::Failed);
    };
    push(alloc, log, name.as_str(), None, None)?;
    *made = None;
    Ok(())
}

// Whether this is the name of the device.
fn is_device(device: &Option<String>, name: &str) -> bool
    ensures { result ≡ is_named device.now name.now }
{
    match device {
        Some(device) => name == device.as_str(),
        None => false,
    }
}

// What a name leads to.
fn look(
    alloc: Global,
    device: &Option<String>,
    name: &str,
    refused: bool,
) -> Result<Found, WriteFault>
    ensures { IfOk result (IsFound (lead_of device.now name.now)) }
{
    if refused {
        return Err(WriteFault::Failed);
    }
    if is_device(device, name) {
        return Ok(Found::Special);
    }
    Ok(Found::At(String::from_str(alloc, name)?))
}

// The bytes under a place, if there are at most `cap` of them.
fn read_file(
    alloc: Global,
    log: &[Change],
    place: &str,
    cap: u64,
    refused: bool,
) -> Result<Vec<u8>, ReadFault>
    ensures given { IfOk result (λ bytes. log_contents log.now place.now ≡ Some bytes.items) }
    ensures within { IfOk result (λ bytes. vec_len bytes ≤ cap) }
    ensures missing { IsErrOf result ReadFault.Missing → log_contents log.now place.now ≡ None }
    ensures too_long { (long : ℕ) → IsErrOf result (ReadFault.TooLong long) →
        (bytes : List ℕ) × (log_contents log.now place.now ≡ Some bytes) × (cap < length bytes) }
    ensures past { (long : ℕ) → IsErrOf result (ReadFault.TooLong long) → cap < long }
{
    if refused {
        return Err(ReadFault::Failed);
    }
    let Some(bytes) = latest(log, place) else {
        return Err(ReadFault::Missing);
    };
    let length = bytes.len() as u64;
    if length > cap {
        return Err(ReadFault::TooLong { length });
    }
    Ok(Vec::from_slice(alloc, bytes)?)
}

// Adds bytes to those that the device took.
fn pour_into(
    device: &Option<String>,
    poured: &mut Vec<u8>,
    name: &str,
    bytes: &[u8],
    refused: bool,
) -> Result<(), WriteFault>
    ensures { Poured result bytes.now (taken_by device.now poured.old.items name.now) (taken_by device.now poured.new.items name.now) }
{
    if refused || !is_device(device, name) {
        return Err(WriteFault::Failed);
    }
    Ok(poured.extend_from_slice(bytes)?)
}

// Nothing is done, unless the call is refused.
fn done(refused: bool) -> Result<(), WriteFault> {
    if refused {
        Err(WriteFault::Failed)
    } else {
        Ok(())
    }
}

impl Disk for MemoryDisk {
    ghost told = { true };

    ghost leads = { λ d. lead_of d.device };

    ghost under = { λ d. log_contents d.log.items };

    ghost taken = { λ d. taken_by d.device d.poured.items };

    ghost made = { λ d. text_of d.made };

    ghost holds = { λ d place bytes. log_contents d.log.items place ≡ Some bytes };

    ghost may_leave = { λ d place c. c ≡ log_contents d.log.items place };

    ghost moment = { λ d. length d.log.items };

    ghost left_since = { λ d. Since d.log.items };

    ghost refusals = { λ d. d.refusals };

    ghost counts_now = { λ d t place c le now. since_now d.log.items t place c le now };

    ghost only_now = { λ d place c left. since_only d.log.items place c left };

    fn read(&mut self, alloc: Global, name: &str, cap: u64) -> Result<Vec<u8>, ReadFault> {
        let refused = refuses(&mut self.calls, &self.fails, self.stops);
        let answer = read_file(alloc, &self.log, name, cap, refused);
        tally(&mut self.refusals, &answer);
        answer
    }

    fn find(&mut self, name: &str) -> Result<Found, WriteFault> {
        let refused = refuses(&mut self.calls, &self.fails, self.stops);
        let answer = look(self.alloc, &self.device, name, refused);
        tally(&mut self.refusals, &answer);
        answer
    }

    fn create(&mut self, beside: &str) -> Result<(), WriteFault> {
        let refused = refuses(&mut self.calls, &self.fails, self.stops);
        let answer = make_file(self.alloc, &mut self.log, &mut self.made, beside, refused);
        tally(&mut self.refusals, &answer);
        answer
    }

    fn write(&mut self, bytes: &[u8]) -> Result<(), WriteFault> {
        let refused = refuses(&mut self.calls, &self.fails, self.stops);
        let answer = append_file(self.alloc, &mut self.log, &self.made, bytes, refused);
        tally(&mut self.refusals, &answer);
        answer
    }

    fn keep_permissions(&mut self) -> Result<(), WriteFault> {
        let answer = done(refuses(&mut self.calls, &self.fails, self.stops));
        tally(&mut self.refusals, &answer);
        answer
    }

    fn sync(&mut self) -> Result<(), WriteFault> {
        let answer = done(refuses(&mut self.calls, &self.fails, self.stops));
        tally(&mut self.refusals, &answer);
        answer
    }

    fn take_place(&mut self, to: &str) -> Result<(), WriteFault> {
        let refused = refuses(&mut self.calls, &self.fails, self.stops);
        let answer = rename_file(self.alloc, &mut self.log, &mut self.made, to, refused);
        tally(&mut self.refusals, &answer);
        answer
    }

    fn settle(&mut self, _at: &str) -> Result<(), WriteFault> {
        let answer = done(refuses(&mut self.calls, &self.fails, self.stops));
        tally(&mut self.refusals, &answer);
        answer
    }

    fn remove(&mut self) -> Result<(), WriteFault> {
        let refused = refuses(&mut self.calls, &self.fails, self.stops);
        let answer = remove_file(self.alloc, &mut self.log, &mut self.made, refused);
        tally(&mut self.refusals, &answer);
        answer
    }

    fn pour(&mut self, name: &str, bytes: &[u8]) -> Result<(), WriteFault> {
        let refused = refuses(&mut self.calls, &self.fails, self.stops);
        let answer = pour_into(&self.device, &mut self.poured, name, bytes, refused);
        tally(&mut self.refusals, &answer);
        answer
    }
}
