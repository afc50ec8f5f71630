// Those who watch a run, each with a thread and a reader of its own.
//
// A watcher has turns until it wants none or the run has ended, and one more behind the end. One that
// wants none waits for the end without work. The leader tells the end; so a watcher's thread ends if its
// turns do, and the leader ends the run.
//
// Each begins with a reader that has seen nothing. Once it has come back, what it has seen is compared
// with the store's line, under the journal's lock, and what it has loaded with what was published.
ghost use Rattle.std.specs.Prelude.{◌≡◌, ◌≤◌, [], All, IfOk, IfErr, length, vec_capacity};
ghost use Rattle.model.specs.Beginning.{Begins};
ghost use Rattle.origin.specs.Commits.{commits_of, loaded_of};
ghost use Rattle.leader.specs.Watching.{KnowsStart, KnowsAlong};

use crate::chief::{Onlooker, Onlookers, Turns};
use crossbeam_utils::sync::EventCount;
use dispatch::{RunNames, Shared};
use model::Lsn;
use origin::{Loader, Origin, Publisher};
use snapshot::{Reader, Watch};
use std::alloc::Global;
use std::marker::PhantomData;
use std::sync::Wait;
use std::sync::atomic::{AtomicBool, Ordering};
use std::thread;
use std::thread::Threads;
use table_locks::{Line, Seen, Store, StoreNames};
use worker::Gate;

/// Those who are to watch a run, room for them once they come back, and the position that it is to
/// publish.
#[derive(Drop)]
pub struct Audience<V: Drop> {
    pub watches: Vec<V>,
    pub home: Vec<V>,
    pub origin: Origin,
    pub publisher: Publisher,
    pub loader: Loader,
    ghost empty: { home.items ≡ [] },
    ghost room: { length watches.items ≤ vec_capacity home },
    ghost published: { publisher ≡ commits_of origin [] },
    ghost loaded: { loader ≡ loaded_of origin loader.skip [] },
}

impl<V: Drop> Audience<V> {
    /// Nothing was published yet. The transaction of this commit LSN is to be skipped, or 0. Refused for
    /// memory, it hands them back.
    pub fn new(alloc: Global, watches: Vec<V>, skip: Lsn) -> Result<Audience<V>, Vec<V>>
        ensures watches { IfOk result (λ audience. audience.watches ≡ watches) }
        ensures skip { IfOk result (λ audience. audience.loader.skip ≡ skip) }
        ensures back { IfErr result (λ back. back ≡ watches) }
    {
        let Ok(home) = Vec::with_capacity(alloc, watches.len()) else {
            return Err(watches);
        };
        let Ok((origin, publisher, loader)) = Origin::new(alloc, skip) else {
            return Err(watches);
        };
        Ok(Audience {
            watches,
            home,
            origin,
            publisher,
            loader,
        })
    }

    /// Those who are to watch, where nobody does.
    pub fn into_watches(self) -> Vec<V>
        ensures { result ≡ self.watches }
    {
        let Audience { watches, .. } = self;
        watches
    }
}

/// Nobody watches: of a run without watchers.
#[derive(Debug, Drop)]
pub struct NoWatch;

impl Watch for NoWatch {
    ghost knows = { λ _ _. Unit {0} };

    fn turn<N: StoreNames, R: Wait>(&mut self, _rt: &R, _reader: &mut Reader<'_, N>) -> bool {
        false
    }
}

/// What a run shares with those who watch it, beside the store: the position that it publishes, and
/// whether it has ended.
#[derive(Drop)]
pub struct Watching<L: RunNames> {
    pub origin: Origin,
    has_ended: AtomicBool,
    /// Wakes those who wait for the end.
    ended: EventCount,
    of: PhantomData<L>,
    ghost named: { origin ≡ L.origin },
}

impl<L: RunNames> Watching<L> {
    /// It has not ended yet.
    pub fn new(origin: Origin) -> Watching<L>
        requires { origin ≡ L.origin }
        ensures { result.origin ≡ origin }
    {
        Watching {
            origin,
            has_ended: AtomicBool::new(false),
            ended: EventCount::new(),
            of: PhantomData,
        }
    }

    /// Where the run publishes.
    pub fn origin(&self) -> &Origin
        ensures { result.now ≡ L.origin }
    {
        &self.origin
    }

    /// Tells that the run has ended: no transaction is open, and nothing more is published.
    pub fn signal_end(&self) {
        self.has_ended.store(true, Ordering::SeqCst);
        self.origin.close();
        self.ended.notify_all();
    }

    fn has_ended(&self) -> bool {
        self.has_ended.load(Ordering::SeqCst)
    }

    fn wait_end<R: Wait>(&self, rt: &R) {
        for _ in rt.forever() {
            let key = self.ended.prepare_wait();
            if self.has_ended() {
                return;
            }
            key.wait(rt);
        }
    }
}

/// One who watches, with what it has seen of the run's store, and loaded from its origin.
#[derive(Drop)]
pub struct Watcher<N: StoreNames, L: RunNames, V: Watch + Drop> {
    watch: V,
    seen: Seen,
    loader: Loader,
    of: PhantomData<(N, L)>,
    ghost known: { ∥ V.knows watch (record { schema = N.schema; start = N.start; line = seen; published = loader }) ∥₁ },
    ghost name: { seen.name ≡ N.line },
    ghost origin: { loader.origin ≡ L.origin },
    ghost skip: { loader.skip ≡ L.skip },
}

impl<N: StoreNames, L: RunNames, V: Watch + Drop> Watcher<N, L, V> {
    /// One who knows a reader that has seen so much.
    pub fn new(watch: V, seen: Seen, loader: Loader) -> Watcher<N, L, V>
        requires known { ∥ V.knows watch (record { schema = N.schema; start = N.start; line = seen; published = loader }) ∥₁ }
        requires name { seen.name ≡ N.line }
        requires origin { loader.origin ≡ L.origin }
        requires skip { loader.skip ≡ L.skip }
    {
        Watcher {
            watch,
            seen,
            loader,
            of: PhantomData,
        }
    }

    /// Whoever watched, once what it has seen was compared with the store's line, and what it has loaded
    /// with what was published.
    pub fn into_watch<R: Wait>(
        self,
        rt: &R,
        store: &Store<N>,
        line: &mut Line,
        origin: &Origin,
        publisher: &mut Publisher,
    ) -> V
        requires name { line.old.name ≡ N.line }
        requires origin { (origin.now ≡ L.origin) × (publisher.old.origin ≡ L.origin) }
        ensures knows { KnowsAlong V.knows N.schema N.start L.skip line.old.list publisher.old.ends result }
        ensures same { (line.new ≡ line.old) × (publisher.new ≡ publisher.old) }
    {
        let Watcher {
            watch,
            mut seen,
            mut loader,
            ..
        } = self;
        look(rt, store, line, &mut seen);
        origin.meet(rt, publisher, &mut loader);
        watch
    }
}

impl<N, L, G, V> Turns<Shared<N, L, G>, L> for Watcher<N, L, V>
where
    N: StoreNames,
    L: RunNames,
    G: Gate + Drop,
    V: Watch + Drop,
{
    fn take_turns<R: Wait>(
        self,
        rt: &R,
        shared: &Shared<N, L, G>,
        watching: &Watching<L>,
    ) -> Watcher<N, L, V> {
        let Watcher {
            mut watch,
            seen,
            loader,
            ..
        } = self;
        let mut reader = Reader::new(&shared.store, seen, watching.origin(), loader);
        give_turns(rt, watching, &mut watch, &mut reader);
        let (seen, loader) = reader.into_parts();
        Watcher::new(watch, seen, loader)
    }
}

// Gives a watcher its turns.
fn give_turns<N: StoreNames, L: RunNames, V: Watch, R: Wait>(
    rt: &R,
    watching: &Watching<L>,
    watch: &mut V,
    reader: &mut Reader<'_, N>,
)
    requires { ∥ V.knows watch.old reader.old ∥₁ }
    ensures knows { ∥ V.knows watch.new reader.new ∥₁ }
    ensures origin { reader.new.published.origin ≡ reader.old.published.origin }
    ensures skip { reader.new.published.skip ≡ reader.old.published.skip }
{
    for _ in rt.forever() {
        if watching.has_ended() || !watch.turn(rt, reader) {
            break;
        }
        thread::yield_now();
    }
    watching.wait_end(rt);
    let _ = watch.turn(rt, reader);
}

// What the store's line tells, as a reader sees it.
fn watch_line<N: StoreNames, R: Wait>(rt: &R, store: &Store<N>, line: &mut Line) -> Seen
    requires { line.old.name ≡ N.line }
    ensures seen { result ≡ line.old }
    ensures line { line.new ≡ line.old }
{
    let mut journal = store.lock_journal(rt);
    journal.meet(line);
    journal.watch()
}

// Learns that what was seen is a beginning of the store's line.
fn look<N: StoreNames, R: Wait>(rt: &R, store: &Store<N>, line: &mut Line, seen: &mut Seen)
    requires name { line.old.name ≡ N.line }
    requires its { seen.old.name ≡ N.line }
    ensures begins { Begins seen.old.list line.old.list }
    ensures line { line.new ≡ line.old }
{
    let mut journal = store.lock_journal(rt);
    journal.meet(line);
    journal.look(seen);
}

/// A watcher of each, that has seen nothing yet, and room for as many. Refused for memory, it hands them
/// back.
pub fn make_watchers<N: StoreNames, L: RunNames, V: Watch + Drop, R: Wait>(
    rt: &R,
    alloc: Global,
    store: &Store<N>,
    line: &mut Line,
    origin: &Origin,
    loader: Loader,
    watches: Vec<V>,
) -> Result<Onlookers<Watcher<N, L, V>>, Vec<V>>
    requires name { line.old.name ≡ N.line }
    requires unseen { line.old.list ≡ [] }
    requires origin { (loader.origin ≡ origin.now) × (origin.now ≡ L.origin) }
    requires loaded { (loader.ends ≡ []) × (loader.skip ≡ L.skip) }
    requires knows { All (KnowsStart V.knows N.schema N.start L.skip) watches.items }
    ensures line { line.new ≡ line.old }
    ensures count { IfOk result (λ made. length made.all.items ≡ length watches.items) }
    ensures back { IfErr result (λ back. back ≡ watches) }
{
    let Ok(room) = Vec::with_capacity(alloc, watches.len()) else {
        return Err(watches);
    };
    let Ok(mut all) = Vec::with_capacity(alloc, watches.len()) else {
        return Err(watches);
    };
    let mut loader = loader;
    for watch in watches {
        let (own, others) = loader.split(origin);
        loader = others;
        let watcher = Watcher::new(watch, watch_line(rt, store, line), own);
        all.push_reserved(Onlooker::Here(watcher));
    }
    Ok(Onlookers { all, room })
}

/// Those who watched, once each is back and was compared.
pub fn gather<N: StoreNames, L: RunNames, V: Watch + Drop, R: Threads + Wait>(
    rt: &R,
    store: &Store<N>,
    line: &mut Line,
    origin: &Origin,
    publisher: &mut Publisher,
    onlookers: Vec<Onlooker<Watcher<N, L, V>>>,
    mut home: Vec<V>,
) -> Vec<V>
    requires name { line.old.name ≡ N.line }
    requires origin { (origin.now ≡ L.origin) × (publisher.old.origin ≡ L.origin) }
    requires empty { home.items ≡ [] }
    requires room { length onlookers.items ≤ vec_capacity home }
    ensures knows { All (KnowsAlong V.knows N.schema N.start L.skip line.old.list publisher.old.ends) result.items }
    ensures count { length result.items ≡ length onlookers.items }
    ensures line { line.new ≡ line.old }
{
    for onlooker in onlookers {
        let watcher = onlooker.join(rt);
        home.push_reserved(watcher.into_watch(rt, store, line, origin, publisher));
    }
    home
}
