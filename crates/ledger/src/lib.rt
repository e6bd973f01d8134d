//! The accounts of the members, and what postings and statements do to them.
#![tactic(auto)]

ghost use Rattle.std.specs.Prelude.{◌≡◌, ◌≤◌, ℤ, map};
ghost use Rattle.record.specs.Meaning.{Fair, post};
ghost use Rattle.record.specs.declared.Posting.{Posting};
ghost use Rattle.ledger.specs.Moves.{account_of, all_posted, charge, issued, last_charges, new_ledger, opposite, posted_to};

use record::{Posting, Postings, Record};
use refusal::MemberFault;

/// A member's account: the balance, what was charged so far, and the last charge.
#[derive(Clone, Copy, Debug, Default, PartialEq, Eq)]
pub struct Account {
    pub balance: i64,
    pub charged: i64,
    pub last: i64,
}

impl Account {
    /// Charges what the balance has beyond what was charged before.
    fn charge(&mut self)
        ensures { self.new ≡ charge self.old }
    {
        self.last = self.balance.saturating_sub(self.charged);
        self.charged = self.balance;
    }
}

/// The accounts of the members 1 to 32.
#[derive(Clone, Copy)]
pub struct Ledger {
    accounts: [Account; 32],
}

impl Ledger {
    /// Accounts of zeros.
    pub fn new() -> Ledger
        ensures { result ≡ new_ledger }
    {
        Ledger {
            accounts: [Account::default(); 32],
        }
    }

    /// The account of a member.
    pub fn account(&self, member: u8) -> Result<Account, MemberFault>
        ensures { result ≡ account_of self.now member }
    {
        member
            .checked_sub(1)
            .and_then(|at| self.accounts.get(usize::from(at)))
            .copied()
            .ok_or(MemberFault::Unknown)
    }

    /// Makes each posting of a record.
    pub fn put<R: Record>(&mut self, item: &R)
        ensures { self.new ≡ all_posted self.old (R.posted item.now) }
    {
        self.post_each(item, |cents| cents);
    }

    /// Takes each posting of a record back, by its opposite.
    pub fn take_back<R: Record>(&mut self, item: &R)
        ensures { self.new ≡ all_posted self.old (map opposite (R.posted item.now)) }
    {
        self.post_each(item, |cents| -cents);
    }

    /// Issues a statement: each member is charged what its balance has beyond what was charged before.
    pub fn issue(&mut self)
        ensures { self.new ≡ issued self.old }
    {
        for account in &mut self.accounts {
            account.charge();
        }
    }

    /// The last charges of the members 1 to 32.
    pub fn last_charges(&self) -> [i64; 32]
        ensures { result ≡ last_charges self.now }
    {
        // An array's `map` moves each account through an Option: it took three times as long.
        let mut charges = [0; 32];
        for (at, account) in self.accounts.iter().enumerate() {
            charges[at] = account.last;
        }
        charges
    }

    /// Makes each posting of a record, its cents turned by a function.
    fn post_each<R: Record, F: Fn(i64) -> i64>(&mut self, item: &R, turned: F)
        requires { (p : Posting) → Fair p → F.pre turned p.cents }
        ensures { (turns : ℤ → ℤ) → ((p : Posting) (cents : ℤ) → Fair p → F.post turned p.cents cents → cents ≡ turns p.cents) → self.new ≡ all_posted self.old (map (λ p. post p.member (turns p.cents)) (R.posted item.now)) }
    {
        let mut list = Postings::new();
        item.fill(&mut list);
        for p in list.as_slice() {
            self.post(Posting {
                cents: turned(p.cents),
                ..*p
            });
        }
    }

    /// One posting moves exactly one account.
    fn post(&mut self, p: Posting)
        requires first { 1 ≤ p.member }
        requires last { p.member ≤ 32 }
        ensures { self.new ≡ posted_to self.old p }
    {
        let account = &mut self.accounts[usize::from(p.member - 1)];
        account.balance = account.balance.saturating_add(p.cents);
    }
}
