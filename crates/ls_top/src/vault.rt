//! The users, and what one command makes of them.
ghost use Rattle.std.specs.Prelude.{◌≡◌, [], IfOk, OnErr, IfSome, IsTrue, false, Some, Ok, nat_lt, ◌≤◌, length};
ghost use Rattle.std.specs.List.{prefix_len};
ghost use Rattle.std.specs.List.Sorted.{IsStrictlyIncreasing};
ghost use Rattle.ls_top.specs.Vault.{IsVault, step};

use ls_bytes::Memory;
use std::alloc::Global;
use std::marker::Model;

/// A command of a script.
#[derive(Clone, Copy, Debug, PartialEq, Eq)]
pub enum Command {
    /// A user is added.
    Add { user: u32 },
}

/// Why a command is refused. A refused command changes nothing.
#[derive(Clone, Copy, Debug, PartialEq, Eq)]
pub enum Refusal {
    /// The user is there already.
    UserExists,
    /// There are 16 users.
    UserLimit,
}

/// What a command answers.
#[derive(Clone, Copy, Debug, PartialEq, Eq)]
pub enum Reply {
    /// It was done.
    Fine,
    /// It was refused.
    Refused(Refusal),
}

/// The most users that there may be.
pub const MOST_USERS: usize = 16;

/// The users: at most 16 numbers, ascending.
#[derive(Drop)]
pub struct Users {
    items: Vec<u32>,
}

impl Model for Users {
    ghost use Rattle.std.specs.Prelude.{List, ℕ};
    ghost use Rattle.ls_top.specs.Vault.{IsVault};

    ghost Value = { List ℕ };

    ghost view = { λ users. users.items.items };

    ghost invariant = { λ users. IsVault users.items.items };
}

impl Users {
    ghost use Rattle.ls_top.specs.Vault.{IsVault, Step, step};

    /// No user. It takes no memory yet.
    pub fn new(alloc: Global) -> Users
        ensures none { result ≡ [] }
    {
        Users {
            items: Vec::new(alloc),
        }
    }

    /// The users of these numbers, if they ascend and are at most 16.
    pub fn of(numbers: Vec<u32>) -> Option<Users>
        ensures same { IfSome result (λ users. users ≡ numbers.items) }
        ensures only { IsVault numbers.items → result ≡ Some numbers.items }
    {
        if numbers.len() > MOST_USERS {
            return None;
        }
        if !ascend(&numbers) {
            return None;
        }
        Some(Users { items: numbers })
    }

    /// The numbers, ascending.
    pub fn as_slice(&self) -> &[u32]
        ensures same { result.now ≡ self.now }
        ensures vault { IsVault self.now }
    {
        &self.items
    }

    /// One command. A refusal takes no memory.
    pub fn step(&mut self, command: Command) -> Result<Reply, Memory>
        ensures step { IfOk result (λ reply. step self.old command ≡
            record { reply = reply; users = self.new }) }
        ensures refused { (refusal : _) → (step self.old command).reply ≡ Reply.Refused refusal →
            result ≡ Ok (Reply.Refused refusal) }
        ensures kept { OnErr result (self.new ≡ self.old) }
    {
        match command {
            Command::Add { user } => add(&mut self.items, user),
        }
    }
}

/// Whether each number is below the next.
fn ascend(numbers: &[u32]) -> bool
    ensures yes { IsTrue result → IsStrictlyIncreasing numbers.now }
    ensures no { result ≡ false → ¬ (IsStrictlyIncreasing numbers.now) }
{
    for at in 1..numbers.len() {
        if numbers[at - 1] >= numbers[at] {
            return false;
        }
    }
    true
}

/// Adds a user to the ascending numbers, unless it is there or they are 16.
fn add(users: &mut Vec<u32>, user: u32) -> Result<Reply, Memory>
    requires vault { IsVault users.old.items }
    ensures step { IfOk result (λ reply. step users.old.items (Command.Add user) ≡
        record { reply = reply; users = users.new.items }) }
    ensures refused { (refusal : _) →
        (step users.old.items (Command.Add user)).reply ≡ Reply.Refused refusal →
        result ≡ Ok (Reply.Refused refusal) }
    ensures kept { OnErr result (users.new.items ≡ users.old.items) }
    ensures vault { IsVault users.new.items }
{
    if users.contains(&user) {
        return Ok(Reply::Refused(Refusal::UserExists));
    }
    if users.len() >= MOST_USERS {
        return Ok(Reply::Refused(Refusal::UserLimit));
    }
    let place = place_of(users, user);
    match users.insert(place, user) {
        Ok(()) => Ok(Reply::Fine),
        Err(_) => Err(Memory),
    }
}

/// How many of the numbers at the front are below this one.
fn place_of(users: &[u32], user: u32) -> usize
    ensures count { result ≡ prefix_len (λ other. nat_lt other user) users.now }
    ensures within { result ≤ length users.now }
{
    users.iter().take_while(|other| **other < user).count()
}
