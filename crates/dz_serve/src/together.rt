//! Tasks side by side.

ghost use Rattle.std.specs.Prelude.{◌≡◌, MatchResult, IfErr};
ghost use Rattle.std.specs.Mem.{manually_drop_value};

use crate::pair::Pair;
use std::marker::PhantomData;
use std::mem::ManuallyDrop;
use std::snapshot::Snapshot;
use std::sync::Wait;
use std::thread;
use std::thread::{Promise, PromisedHandle, Scope, SpawnError, Threads};

/// What is done in a thread of its own, over what all threads share.
pub(crate) trait Work<B, T> {
    /// What it shows of what it hands on.
    ghost shows: { Self → T → Type 0 };
}

/// The promise of a thread: what it hands on is what its work has to show.
#[derive(Drop)]
pub(crate) struct Showing<B, W> {
    before: Snapshot<W>,
    of: PhantomData<B>,
}

impl<B, W> Showing<B, W> {
    /// The promise of this work.
    fn of(work: &W) -> Showing<B, W>
        ensures { result.before.value ≡ work.now }
    {
        Showing {
            before: Snapshot::of(work),
            of: PhantomData,
        }
    }

    /// The promises of two works.
    fn of_both(first: &W, second: &W) -> Pair<Showing<B, W>>
        ensures first { result.first.before.value ≡ first.now }
        ensures second { result.second.before.value ≡ second.now }
    {
        Pair {
            first: Showing::<B, W>::of(first),
            second: Showing::<B, W>::of(second),
        }
    }
}

impl<B, T, W: Work<B, T>> Promise<T> for Showing<B, W> {
    ghost kept_by = { λ p r. W.shows p.before.value r };
}

/// Two of each of three kinds: what workers work with, or what they hand on.
#[derive(Drop)]
pub(crate) struct Workers<T, U, V> {
    pub datagrams: Pair<T>,
    pub links: Pair<U>,
    pub transfers: Pair<V>,
}

/// A device that is given back, and so never dropped.
pub(crate) fn held<T>(device: T) -> ManuallyDrop<T>
    ensures { manually_drop_value result ≡ device }
{
    unsafe { ManuallyDrop::new_unchecked(device) }
}

/// A task whose thread was asked for: the thread, or the task where no thread could be made.
struct Asked<F, T, P: Promise<T>> {
    promise: Snapshot<P>,
    spawned: Result<PromisedHandle<T, P>, SpawnError<F>>,
}

/// A task that was started: its thread, or what it handed on.
struct Started<T, P: Promise<T>> {
    promise: Snapshot<P>,
    child: Result<PromisedHandle<T, P>, T>,
}

/// Asks for a thread that does a task.
fn ask<'s, E, P: Promise<T> + Drop, F: FnOnce() -> T + Send + Drop + 's, T: Send + Drop + 's>(
    scope: &Scope<'s, E>,
    promise: P,
    task: F,
) -> Asked<F, T, P>
    requires runs { F.pre task }
    requires keeps { (r : T) → F.post task r → P.kept_by promise r }
    ensures promise { result.promise.value ≡ promise }
    ensures spawned { MatchResult result.spawned (λ h. h.promise ≡ result.promise.value)
        (λ e. F.pre e.value) }
    ensures keeps { IfErr result.spawned
        (λ e. (r : T) → F.post e.value r → P.kept_by result.promise.value r) }
{
    let kept = Snapshot::of(&promise);
    let spawned = scope.spawn_with(promise, task);
    Asked {
        promise: kept,
        spawned,
    }
}

/// Asks for a thread for each of two tasks.
fn ask_both<
    's,
    E,
    P: Promise<T> + Drop,
    F: FnOnce() -> T + Send + Drop + 's,
    G: FnOnce() -> T + Send + Drop + 's,
    T: Send + Drop + 's,
>(scope: &Scope<'s, E>, promises: Pair<P>, tasks: (F, G)) -> (Asked<F, T, P>, Asked<G, T, P>)
    requires first { F.pre tasks.0 }
    requires second { G.pre tasks.1 }
    requires first_keeps { (r : T) → F.post tasks.0 r → P.kept_by promises.first r }
    requires second_keeps { (r : T) → G.post tasks.1 r → P.kept_by promises.second r }
    ensures first_promise { result.0.promise.value ≡ promises.first }
    ensures second_promise { result.1.promise.value ≡ promises.second }
    ensures first { MatchResult result.0.spawned (λ h. h.promise ≡ result.0.promise.value)
        (λ e. F.pre e.value) }
    ensures second { MatchResult result.1.spawned (λ h. h.promise ≡ result.1.promise.value)
        (λ e. G.pre e.value) }
    ensures first_keeps { IfErr result.0.spawned
        (λ e. (r : T) → F.post e.value r → P.kept_by result.0.promise.value r) }
    ensures second_keeps { IfErr result.1.spawned
        (λ e. (r : T) → G.post e.value r → P.kept_by result.1.promise.value r) }
{
    let (one, two) = promises.parts();
    let (first, second) = tasks;
    (ask(scope, one, first), ask(scope, two, second))
}

/// Where no thread could be made for a task, it is done here and now.
fn start<F: FnOnce() -> T, T, P: Promise<T>>(asked: Asked<F, T, P>) -> Started<T, P>
    requires spawned { MatchResult asked.spawned (λ h. h.promise ≡ asked.promise.value)
        (λ e. F.pre e.value) }
    requires keeps { IfErr asked.spawned
        (λ e. (r : T) → F.post e.value r → P.kept_by asked.promise.value r) }
    ensures promise { result.promise.value ≡ asked.promise.value }
    ensures child { MatchResult result.child (λ h. h.promise ≡ result.promise.value)
        (λ r. P.kept_by result.promise.value r) }
{
    let Asked { promise, spawned } = asked;
    let child = match spawned {
        Ok(child) => Ok(child),
        Err(refused) => Err((refused.value)()),
    };
    Started { promise, child }
}

/// What a task hands on that was started.
fn join<T, P: Promise<T>, R: Threads>(rt: &R, started: Started<T, P>) -> T
    requires { MatchResult started.child (λ h. h.promise ≡ started.promise.value)
        (λ r. P.kept_by started.promise.value r) }
    ensures { P.kept_by started.promise.value result }
{
    let Started { promise, child } = started;
    drop(promise);
    match child {
        Ok(child) => child.join(rt),
        Err(done) => done,
    }
}

/// The same of two tasks.
fn start_both<F: FnOnce() -> T, G: FnOnce() -> T, T, P: Promise<T>>(
    asked: (Asked<F, T, P>, Asked<G, T, P>),
) -> Pair<Started<T, P>>
    requires first { MatchResult asked.0.spawned (λ h. h.promise ≡ asked.0.promise.value)
        (λ e. F.pre e.value) }
    requires second { MatchResult asked.1.spawned (λ h. h.promise ≡ asked.1.promise.value)
        (λ e. G.pre e.value) }
    requires first_keeps { IfErr asked.0.spawned
        (λ e. (r : T) → F.post e.value r → P.kept_by asked.0.promise.value r) }
    requires second_keeps { IfErr asked.1.spawned
        (λ e. (r : T) → G.post e.value r → P.kept_by asked.1.promise.value r) }
    ensures first_promise { result.first.promise.value ≡ asked.0.promise.value }
    ensures second_promise { result.second.promise.value ≡ asked.1.promise.value }
    ensures first { MatchResult result.first.child
        (λ h. h.promise ≡ result.first.promise.value)
        (λ r. P.kept_by result.first.promise.value r) }
    ensures second { MatchResult result.second.child
        (λ h. h.promise ≡ result.second.promise.value)
        (λ r. P.kept_by result.second.promise.value r) }
{
    let (first, second) = asked;
    Pair {
        first: start(first),
        second: start(second),
    }
}

/// What two tasks hand on that were started.
fn join_both<T, P: Promise<T>, R: Threads>(rt: &R, started: Pair<Started<T, P>>) -> Pair<T>
    requires first { MatchResult started.first.child
        (λ h. h.promise ≡ started.first.promise.value)
        (λ r. P.kept_by started.first.promise.value r) }
    requires second { MatchResult started.second.child
        (λ h. h.promise ≡ started.second.promise.value)
        (λ r. P.kept_by started.second.promise.value r) }
    ensures first { P.kept_by started.first.promise.value result.first }
    ensures second { P.kept_by started.second.promise.value result.second }
{
    let Pair { first, second } = started;
    Pair {
        first: join(rt, first),
        second: join(rt, second),
    }
}

/// What six tasks hand on whose threads were asked for. Those for which no thread could be made are done first.
fn finish<
    F1: FnOnce() -> T,
    F2: FnOnce() -> T,
    F3: FnOnce() -> U,
    F4: FnOnce() -> U,
    F5: FnOnce() -> V,
    F6: FnOnce() -> V,
    T,
    U,
    V,
    P: Promise<T>,
    Q: Promise<U>,
    S: Promise<V>,
    R: Threads,
>(
    rt: &R,
    datagrams: (Asked<F1, T, P>, Asked<F2, T, P>),
    links: (Asked<F3, U, Q>, Asked<F4, U, Q>),
    transfers: (Asked<F5, V, S>, Asked<F6, V, S>),
) -> Workers<T, U, V>
    requires one { MatchResult datagrams.0.spawned (λ h. h.promise ≡ datagrams.0.promise.value)
        (λ e. F1.pre e.value) }
    requires one_keeps { IfErr datagrams.0.spawned
        (λ e. (r : T) → F1.post e.value r → P.kept_by datagrams.0.promise.value r) }
    requires two { MatchResult datagrams.1.spawned (λ h. h.promise ≡ datagrams.1.promise.value)
        (λ e. F2.pre e.value) }
    requires two_keeps { IfErr datagrams.1.spawned
        (λ e. (r : T) → F2.post e.value r → P.kept_by datagrams.1.promise.value r) }
    requires three { MatchResult links.0.spawned (λ h. h.promise ≡ links.0.promise.value)
        (λ e. F3.pre e.value) }
    requires three_keeps { IfErr links.0.spawned
        (λ e. (r : U) → F3.post e.value r → Q.kept_by links.0.promise.value r) }
    requires four { MatchResult links.1.spawned (λ h. h.promise ≡ links.1.promise.value)
        (λ e. F4.pre e.value) }
    requires four_keeps { IfErr links.1.spawned
        (λ e. (r : U) → F4.post e.value r → Q.kept_by links.1.promise.value r) }
    requires five { MatchResult transfers.0.spawned (λ h. h.promise ≡ transfers.0.promise.value)
        (λ e. F5.pre e.value) }
    requires five_keeps { IfErr transfers.0.spawned
        (λ e. (r : V) → F5.post e.value r → S.kept_by transfers.0.promise.value r) }
    requires six { MatchResult transfers.1.spawned (λ h. h.promise ≡ transfers.1.promise.value)
        (λ e. F6.pre e.value) }
    requires six_keeps { IfErr transfers.1.spawned
        (λ e. (r : V) → F6.post e.value r → S.kept_by transfers.1.promise.value r) }
    ensures one { P.kept_by datagrams.0.promise.value result.datagrams.first }
    ensures two { P.kept_by datagrams.1.promise.value result.datagrams.second }
    ensures three { Q.kept_by links.0.promise.value result.links.first }
    ensures four { Q.kept_by links.1.promise.value result.links.second }
    ensures five { S.kept_by transfers.0.promise.value result.transfers.first }
    ensures six { S.kept_by transfers.1.promise.value result.transfers.second }
{
    let datagrams = start_both(datagrams);
    let links = start_both(links);
    let transfers = start_both(transfers);
    Workers {
        datagrams: join_both(rt, datagrams),
        links: join_both(rt, links),
        transfers: join_both(rt, transfers),
    }
}

/// Does two works of each kind, each in a thread of its own. Where a thread can't be made, the caller's own does its work
/// once the others were started.
pub(crate) fn run_together<
    B,
    F: Fn(W) -> T + Sync,
    G: Fn(X) -> U + Sync,
    H: Fn(Y) -> V + Sync,
    W: Work<B, T> + Send + Drop,
    X: Work<B, U> + Send + Drop,
    Y: Work<B, V> + Send + Drop,
    T: Send + Drop,
    U: Send + Drop,
    V: Send + Drop,
    R: Threads + Wait + Sync,
>(rt: &R, works: Workers<W, X, Y>, listen: &F, link: &G, transfer: &H) -> Workers<T, U, V>
    requires one { F.pre listen.now works.datagrams.first }
    requires two { F.pre listen.now works.datagrams.second }
    requires three { G.pre link.now works.links.first }
    requires four { G.pre link.now works.links.second }
    requires five { H.pre transfer.now works.transfers.first }
    requires six { H.pre transfer.now works.transfers.second }
    requires listens { (w : W) (r : T) → F.post listen.now w r → W.shows w r }
    requires links { (x : X) (r : U) → G.post link.now x r → X.shows x r }
    requires transfers { (y : Y) (r : V) → H.post transfer.now y r → Y.shows y r }
    ensures one { W.shows works.datagrams.first result.datagrams.first }
    ensures two { W.shows works.datagrams.second result.datagrams.second }
    ensures three { X.shows works.links.first result.links.first }
    ensures four { X.shows works.links.second result.links.second }
    ensures five { Y.shows works.transfers.first result.transfers.first }
    ensures six { Y.shows works.transfers.second result.transfers.second }
{
    thread::scope(
        thread::scope_env(),
        rt,
        move |scope| -> Workers<T, U, V>
            requires one { F.pre listen.now works.datagrams.first }
            requires two { F.pre listen.now works.datagrams.second }
            requires three { G.pre link.now works.links.first }
            requires four { G.pre link.now works.links.second }
            requires five { H.pre transfer.now works.transfers.first }
            requires six { H.pre transfer.now works.transfers.second }
            requires listens { (w : W) (r : T) → F.post listen.now w r → W.shows w r }
            requires links { (x : X) (r : U) → G.post link.now x r → X.shows x r }
            requires transfers { (y : Y) (r : V) → H.post transfer.now y r → Y.shows y r }
        {
            run_within::<_, B, _, _, _, _, _, _, _, _, _, _>(
                scope, rt, works, listen, link, transfer,
            )
        },
    )
}

/// Does two works of each kind in threads of this scope.
fn run_within<
    's,
    E,
    B,
    F: Fn(W) -> T + Sync + 's,
    G: Fn(X) -> U + Sync + 's,
    H: Fn(Y) -> V + Sync + 's,
    W: Work<B, T> + Send + Drop + 's,
    X: Work<B, U> + Send + Drop + 's,
    Y: Work<B, V> + Send + Drop + 's,
    T: Send + Drop + 's,
    U: Send + Drop + 's,
    V: Send + Drop + 's,
    R: Threads + Wait,
>(
    scope: &Scope<'s, E>,
    rt: &R,
    works: Workers<W, X, Y>,
    listen: &'s F,
    link: &'s G,
    transfer: &'s H,
) -> Workers<T, U, V>
    requires one { F.pre listen.now works.datagrams.first }
    requires two { F.pre listen.now works.datagrams.second }
    requires three { G.pre link.now works.links.first }
    requires four { G.pre link.now works.links.second }
    requires five { H.pre transfer.now works.transfers.first }
    requires six { H.pre transfer.now works.transfers.second }
    requires listens { (w : W) (r : T) → F.post listen.now w r → W.shows w r }
    requires links { (x : X) (r : U) → G.post link.now x r → X.shows x r }
    requires transfers { (y : Y) (r : V) → H.post transfer.now y r → Y.shows y r }
    ensures one { W.shows works.datagrams.first result.datagrams.first }
    ensures two { W.shows works.datagrams.second result.datagrams.second }
    ensures three { X.shows works.links.first result.links.first }
    ensures four { X.shows works.links.second result.links.second }
    ensures five { Y.shows works.transfers.first result.transfers.first }
    ensures six { Y.shows works.transfers.second result.transfers.second }
{
    let (one, two) = works.datagrams.parts();
    let (three, four) = works.links.parts();
    let (five, six) = works.transfers.parts();
    let listened = Showing::<B, W>::of_both(&one, &two);
    let linked = Showing::<B, X>::of_both(&three, &four);
    let transferred = Showing::<B, Y>::of_both(&five, &six);
    let datagrams = (move || call(listen, one), move || call(listen, two));
    let links = (move || call(link, three), move || call(link, four));
    let transfers = (move || call(transfer, five), move || call(transfer, six));
    let datagrams = ask_both(scope, listened, datagrams);
    let links = ask_both(scope, linked, links);
    let transfers = ask_both(scope, transferred, transfers);
    finish(rt, datagrams, links, transfers)
}

/// Does one work.
fn call<F: Fn(W) -> T, W, T>(task: &F, work: W) -> T
    requires { F.pre task.now work }
    ensures { F.post task.now work result }
{
    task(work)
}
