use crate::{
    ACK, ADOPT, CopyCore, ENTRY, FenceAnswer, Heard, MessageHead, PromoteFault, REJOIN, Role,
};
use durability_core::Chain;
use kv_edge::{Bytes, NoMemory, Seq};
use std::alloc::Global;
use std::test::Fail;

/// The chain of three places, of which the last has no name where `third` is false.
fn chain(alloc: Global, third: bool) -> Result<Chain, NoMemory> {
    let mut names = Seq::new(alloc);
    names.push(Some(Bytes::from_slice(alloc, b"a")?))?;
    names.push(Some(Bytes::from_slice(alloc, b"b")?))?;
    names.push(if third {
        Some(Bytes::from_slice(alloc, b"c")?)
    } else {
        None
    })?;
    Ok(Chain { names })
}

/// The copy at place 1 that heard two entries of term 4 and promised term 5.
fn second(alloc: Global) -> Result<CopyCore, NoMemory> {
    let chain = chain(alloc, true)?;
    Ok(CopyCore {
        chain,
        place: 1,
        role: Role::Replica,
        promise: 5,
        accepted: 4,
        length: 2,
        whole: true,
        incarnation: 1,
    })
}

fn answer(place: u8, term: u64, accepted: u64, length: u64, whole: bool) -> FenceAnswer {
    FenceAnswer {
        place,
        term,
        accepted,
        length,
        incarnation: 1,
        whole,
    }
}

/// The place of the first row whose promotion, of the copy at place 1, doesn't end as told.
fn first_wrong(
    alloc: Global,
    rows: &[(u64, &[FenceAnswer], bool, Option<PromoteFault>)],
) -> Result<Option<usize>, NoMemory> {
    for i in 0..rows.len() {
        let (term, answers, weak, want) = rows[i];
        let mut core = second(alloc)?;
        let before = second(alloc)?;
        let fault = core.promote(term, answers, weak).err();
        let is_changed = core != before;
        if fault != want || is_changed != want.is_none() {
            return Ok(Some(i));
        }
    }
    Ok(None)
}

#[test]
fn a_promotion_is_refused_for_the_first_fault(rt: HostRuntime) -> Result<(), Fail> {
    let own = answer(1, 5, 4, 2, true);
    let third = answer(2, 5, 4, 0, true);
    let rows: [(u64, &[FenceAnswer], bool, Option<PromoteFault>); 16] = [
        // the answers of the two that are left after a crash of the first
        (5, &[own, third], false, None),
        (5, &[third, own], true, None),
        // the place doesn't own the term, whatever else is wrong
        (6, &[], false, Some(PromoteFault::Owner)),
        (1, &[own, third], false, Some(PromoteFault::Owner)),
        (4, &[own, third], false, Some(PromoteFault::Owner)),
        // fewer than two of the three places, also by one place's answer twice
        (9, &[], false, Some(PromoteFault::Few)),
        (5, &[own], false, Some(PromoteFault::Few)),
        (5, &[own, own], false, Some(PromoteFault::Few)),
        (
            5,
            &[own, answer(2, 9, 4, 0, true)],
            false,
            Some(PromoteFault::Few),
        ),
        // another term, a place twice or without a name, or not what the copy is now
        (
            5,
            &[own, third, answer(0, 9, 4, 2, true)],
            false,
            Some(PromoteFault::Foreign),
        ),
        (5, &[own, third, third], false, Some(PromoteFault::Foreign)),
        (
            5,
            &[own, third, answer(3, 5, 0, 0, true)],
            false,
            Some(PromoteFault::Foreign),
        ),
        (
            5,
            &[answer(1, 5, 4, 1, true), third],
            false,
            Some(PromoteFault::Foreign),
        ),
        (
            5,
            &[answer(0, 5, 4, 2, true), third],
            false,
            Some(PromoteFault::Foreign),
        ),
        // the longest log is that of the latest term
        (
            5,
            &[own, answer(2, 5, 4, 3, true)],
            true,
            Some(PromoteFault::NotLongest),
        ),
        // a copy that isn't whole keeps a strict promotion back
        (
            5,
            &[own, answer(2, 5, 4, 0, false)],
            false,
            Some(PromoteFault::NotWhole),
        ),
    ];
    assert_eq!(rt; first_wrong(rt.alloc(), &rows)?, None);
    let others: [(u64, &[FenceAnswer], bool, Option<PromoteFault>); 3] = [
        // the promise isn't the term
        (
            9,
            &[answer(1, 9, 4, 2, true), answer(2, 9, 4, 0, true)],
            false,
            Some(PromoteFault::Foreign),
        ),
        (5, &[own, answer(2, 5, 4, 0, false)], true, None),
        (5, &[own, answer(2, 5, 0, 9, true)], false, None),
    ];
    assert_eq!(rt; first_wrong(rt.alloc(), &others)?, None);
    Ok(())
}

#[test]
fn a_promoted_copy_is_active_and_refuses_its_own_term(rt: HostRuntime) -> Result<(), Fail> {
    let mut core = second(rt.alloc())?;
    core.whole = false;
    let answers = [answer(1, 5, 4, 2, false), answer(2, 5, 4, 0, true)];
    assert_eq!(rt;
        core.promote(5, &answers, false),
        Err(PromoteFault::NotWhole)
    );
    assert_eq!(rt; core.promote(5, &answers, true), Ok(()));
    assert_eq!(rt;
        (core.role, core.promise, core.accepted),
        (Role::Active, 5, 5)
    );
    assert_eq!(rt; (core.length, core.whole), (2, true));
    // the term of its log, and one below its promise
    assert_eq!(rt; core.promote(5, &answers, true), Err(PromoteFault::Old));
    core.promise = 13;
    assert_eq!(rt; core.promote(9, &answers, true), Err(PromoteFault::Old));
    core.leave(Role::Dead);
    assert_eq!(rt; core.role, Role::Dead);
    Ok(())
}

#[test]
fn a_fence_promises_its_term(rt: HostRuntime) -> Result<(), Fail> {
    let mut core = second(rt.alloc())?;
    core.role = Role::Active;
    assert_eq!(rt; core.fence(4), Err(PromoteFault::Old));
    assert_eq!(rt; core.fence(5), Ok(answer(1, 5, 4, 2, true)));
    assert_eq!(rt; (core.role, core.promise), (Role::Active, 5));
    assert_eq!(rt; core.fence(10), Ok(answer(1, 10, 4, 2, true)));
    assert_eq!(rt;
        (core.role, core.promise, core.accepted),
        (Role::Replica, 10, 4)
    );
    Ok(())
}

/// What of a row differs: the copy at place 1 in a role, whole or not, hears a message of a kind from a place at a term with
/// two numbers.
fn first_misheard(
    alloc: Global,
    rows: &[(Role, bool, u8, u8, u64, u64, u64, Heard)],
) -> Result<Option<usize>, NoMemory> {
    let mut core = second(alloc)?;
    core.promise = 4;
    for i in 0..rows.len() {
        let (role, whole, kind, from, term, first, second, want) = rows[i];
        core.role = role;
        core.whole = whole;
        let head = MessageHead {
            kind,
            from,
            term,
            first,
            second,
            third: 0,
        };
        if core.hear(&head) != want {
            return Ok(Some(i));
        }
    }
    Ok(None)
}

#[test]
fn a_copy_hears_what_its_role_and_terms_allow(rt: HostRuntime) -> Result<(), Fail> {
    let replica = Role::Replica;
    let rows = [
        // entries of the log's term: there, next, further on; and of another term
        (replica, true, ENTRY, 0, 4, 2, 0, Heard::Acknowledge),
        (replica, true, ENTRY, 0, 4, 3, 0, Heard::Append),
        (Role::Pending, false, ENTRY, 0, 4, 3, 0, Heard::Append),
        (replica, true, ENTRY, 0, 4, 4, 0, Heard::AskRejoin),
        (replica, true, ENTRY, 0, 8, 3, 0, Heard::AskRejoin),
        // not from the owner of the term, or of a term below the promise
        (replica, true, ENTRY, 2, 4, 3, 0, Heard::Ignore),
        (replica, true, ENTRY, 3, 7, 3, 0, Heard::Ignore),
        (replica, true, ENTRY, 0, 0, 3, 0, Heard::Ignore),
        // how far the active is: needed by one that is shorter, of another term or not whole
        (replica, true, ACK, 0, 4, 2, 2, Heard::Ignore),
        (replica, true, ACK, 0, 4, 3, 0, Heard::AskRejoin),
        (replica, false, ACK, 0, 4, 2, 2, Heard::AskRejoin),
        (replica, true, ACK, 0, 8, 0, 0, Heard::AskRejoin),
        // all that the active has: for another opening, of a later term, longer, as long
        (replica, true, ADOPT, 0, 8, 2, 9, Heard::Ignore),
        (replica, true, ADOPT, 0, 8, 1, 0, Heard::TakeAll),
        (replica, true, ADOPT, 0, 4, 1, 3, Heard::TakeAll),
        (replica, false, ADOPT, 0, 4, 1, 2, Heard::MarkWhole),
        (replica, true, REJOIN, 0, 4, 4, 2, Heard::Ignore),
        // an active hears Ack and Rejoin of its own term alone, a dead copy nothing
        (Role::Active, true, ACK, 2, 4, 2, 0, Heard::Count),
        (Role::Active, true, REJOIN, 2, 4, 0, 0, Heard::GiveAdopt),
        (Role::Active, true, ACK, 2, 8, 2, 0, Heard::Ignore),
        (Role::Active, true, ADOPT, 0, 4, 1, 3, Heard::Ignore),
        (Role::Active, true, ACK, 3, 4, 2, 0, Heard::Ignore),
        (Role::Dead, true, ENTRY, 0, 4, 3, 0, Heard::Ignore),
    ];
    assert_eq!(rt; first_misheard(rt.alloc(), &rows)?, None);
    Ok(())
}

#[test]
fn a_copy_takes_the_numbers_of_what_it_takes(rt: HostRuntime) -> Result<(), Fail> {
    let mut core = second(rt.alloc())?;
    core.whole = false;
    let head = MessageHead {
        kind: ADOPT,
        from: 0,
        term: 8,
        first: 1,
        second: 7,
        third: 0,
    };
    if core.hear(&head) == Heard::TakeAll {
        core.taken(&head);
    }
    assert_eq!(rt;
        (core.role, core.promise, core.accepted),
        (Role::Replica, 8, 8)
    );
    assert_eq!(rt; (core.length, core.whole, core.incarnation), (7, true, 1));
    Ok(())
}
