//! The lanes of one turn, to which its requests are dealt.
ghost use Rattle.std.specs.Prelude.{◌≡◌, ◌<◌, ◌≤◌, ◌++◌, All, IfOk, OnOk, length, vec_len};
ghost use Rattle.query_gate.specs.Dealing.{AreAnswered, AreDealt, AreReplies, HasAnswered, run_of};

use segment_queue::Desk;
use std::alloc::Global;
use std::thread;
use std::thread::Threads;
use tb_base::Memory;

/// What answers requests, at a desk, and shares what it knows with all lanes.
pub trait Office<Q, D, A> {
    // a request that may be answered
    ghost may: { Self → Q → Type 0 };

    // a right reply to a request
    ghost right: { Self → Q → A → Type 0 };

    /// The reply to a request. Refused only for want of memory.
    fn reply(&self, alloc: Global, desk: &mut D, request: &Q) -> Result<A, Memory>
        requires { may self.now request.now }
        ensures { IfOk result (right self.now request.now) };
}

/// A lane of one turn: its desk, which run of the requests is its own, and its replies to them.
/// `None`: not yet, or there was no memory.
#[derive(Drop)]
struct Place<D: Drop, A: Drop> {
    desk: D,
    from: usize,
    to: usize,
    replies: Option<Vec<A>>,
}

// Where a run ends that begins here, so long that all lanes have about the same; the last one has
// the rest.
fn end_of(from: usize, size: usize, whole: usize, left: usize) -> usize
    requires { from ≤ whole }
    ensures low { from ≤ result }
    ensures high { result ≤ whole }
    ensures last { left ≡ 0 → result ≡ whole }
{
    if left == 0 || whole - from <= size {
        whole
    } else {
        from + size
    }
}

// A place at each desk: the requests in runs, one after another.
fn seat<D: Drop, A: Drop>(
    alloc: Global,
    desks: Vec<D>,
    whole: usize,
) -> Result<Vec<Place<D, A>>, Memory>
    requires { 0 < vec_len desks }
    ensures dealt { IfOk result (λ v. AreDealt 0 v.items whole) }
    ensures count { IfOk result (λ v. vec_len v ≡ vec_len desks) }
{
    let size = whole.div_ceil(desks.len());
    let mut left = desks.len();
    let mut places = Vec::new(alloc);
    let mut from = 0usize;
    for desk in desks {
        left -= 1;
        let to = end_of(from, size, whole, left);
        let Ok(()) = places.push(Place {
            desk,
            from,
            to,
            replies: None,
        }) else {
            return Err(Memory);
        };
        from = to;
    }
    Ok(places)
}

// One reply for each request, in order.
fn replies_to<Q, D: Drop, A: Drop, O: Office<Q, D, A>>(
    alloc: Global,
    office: &O,
    desk: &mut D,
    requests: &[Q],
) -> Result<Vec<A>, Memory>
    requires { All (O.may office.now) requests.now }
    ensures { IfOk result (λ v. AreReplies (O.right office.now) requests.now v.items) }
{
    let mut replies = Vec::new(alloc);
    for i in 0..requests.len() {
        let reply = office.reply(alloc, desk, &requests[i])?;
        let Ok(()) = replies.push(reply) else {
            return Err(Memory);
        };
    }
    Ok(replies)
}

// A lane answers its run of the requests.
fn answer_run<Q, D: Drop, A: Drop, O: Office<Q, D, A>>(
    alloc: Global,
    office: &O,
    requests: &[Q],
    place: &mut Place<D, A>,
)
    requires may { All (O.may office.now) requests.now }
    requires low { place.old.from ≤ place.old.to }
    requires high { place.old.to ≤ length requests.now }
    ensures from { place.new.from ≡ place.old.from }
    ensures to { place.new.to ≡ place.old.to }
    ensures answered { HasAnswered (O.right office.now)
        (run_of requests.now place.new.from place.new.to) place.new.replies }
{
    let own = &requests[place.from..place.to];
    match replies_to(alloc, office, &mut place.desk, own) {
        Ok(replies) => place.replies = Some(replies),
        Err(Memory) => place.replies = None,
    }
}

// By how many threads the lanes answer: one starts none, and a lone request takes no more.
fn threads_for(lanes: usize, requests: usize) -> usize
    requires { 0 < lanes }
    ensures { 0 < result }
{
    if requests <= 1 { 1 } else { lanes }
}

// Each lane answers its run, in threads where these can be started.
fn answer_runs<
    Q: Sync,
    D: Drop + Send,
    A: Drop + Send,
    O: Office<Q, D, A> + Sync,
    R: Threads + Sync,
>(rt: &R, alloc: Global, office: &O, requests: &[Q], places: &mut [Place<D, A>])
    requires may { All (O.may office.now) requests.now }
    requires some { 0 < length places.old }
    requires dealt { AreDealt 0 places.old (length requests.now) }
    ensures answered { AreAnswered (O.right office.now) requests.now 0 places.new
        (length requests.now) }
    ensures count { length places.new ≡ length places.old }
{
    thread::for_each_mut(
        rt,
        places,
        threads_for(places.len(), requests.len()),
        &|_i: usize, place: &mut Place<D, A>|
            requires { All (O.may office.now) requests.now × (place.now.from ≤ place.now.to)
                × (place.now.to ≤ length requests.now) }
            ensures { (place.exit.now.from ≡ place.entry.now.from)
                × (place.exit.now.to ≡ place.entry.now.to)
                × HasAnswered (O.right office.entry.now) (run_of requests.entry.now
                place.exit.now.from place.exit.now.to) place.exit.now.replies }
        { answer_run(alloc, office, requests, place) },
    );
}

// Puts replies behind replies.
fn add<A: Drop>(all: &mut Vec<A>, more: Vec<A>) -> Result<(), Memory>
    ensures { OnOk result (all.new.items ≡ all.old.items ++ more.items) }
{
    let mut more = more;
    match all.append(&mut more) {
        Ok(()) => Ok(()),
        Err(_) => Err(Memory),
    }
}

// The desks, and the replies in the order of the requests.
fn gather<Q, D: Drop, A: Drop, O: Office<Q, D, A>>(
    alloc: Global,
    _office: &O,
    requests: &[Q],
    places: Vec<Place<D, A>>,
) -> Result<(Vec<D>, Vec<A>), Memory>
    requires { AreAnswered (O.right _office.now) requests.now 0 places.items
        (length requests.now) }
    ensures desks { IfOk result (λ t. vec_len t.0 ≡ vec_len places) }
    ensures replies { IfOk result
        (λ t. AreReplies (O.right _office.now) requests.now t.1.items) }
{
    let mut desks = Vec::new(alloc);
    let mut all = Vec::new(alloc);
    let mut at = 0usize;
    for place in places {
        let Place {
            desk,
            from: _,
            to,
            replies,
        } = place;
        let Ok(()) = desks.push(desk) else {
            return Err(Memory);
        };
        let Some(replies) = replies else {
            return Err(Memory);
        };
        add(&mut all, replies)?;
        at = to;
    }
    let _at = at;
    Ok((desks, all))
}

/// Has the lanes, of which there is one at each desk, answer requests at once, where threads can be
/// started; gives back the desks, and one right reply for each request in order. Refused only for
/// want of memory; the desks are dropped then.
pub fn answer_all<
    Q: Sync,
    D: Drop + Send,
    A: Drop + Send,
    O: Office<Q, D, A> + Sync,
    R: Threads + Sync,
>(
    rt: &R,
    alloc: Global,
    office: &O,
    desks: Vec<D>,
    requests: &[Q],
) -> Result<(Vec<D>, Vec<A>), Memory>
    requires some { 0 < vec_len desks }
    requires may { All (O.may office.now) requests.now }
    ensures desks { IfOk result (λ t. vec_len t.0 ≡ vec_len desks) }
    ensures replies { IfOk result
        (λ t. AreReplies (O.right office.now) requests.now t.1.items) }
{
    let mut places = seat::<D, A>(alloc, desks, requests.len())?;
    answer_runs(rt, alloc, office, requests, places.as_mut_slice());
    gather(alloc, office, requests, places)
}

/// So many desks. Refused only for want of memory.
pub fn desks_for(alloc: Global, lanes: u32) -> Result<Vec<Desk>, Memory>
    ensures { IfOk result (λ v. vec_len v ≡ lanes) }
{
    let mut desks = Vec::new(alloc);
    for _lane in 0..lanes {
        let Ok(()) = desks.push(Desk::new(alloc)) else {
            return Err(Memory);
        };
    }
    Ok(desks)
}
