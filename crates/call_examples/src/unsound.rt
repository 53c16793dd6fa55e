// States that are not sound, each by one part alone: changes, by a number, of a state in Idle with the packages 1, which is
// Transferred, and 2, which is Transferring and lacks bytes, and a table with one cluster.
use clusters::cluster::Cluster;
use clusters::table::Table;
use state::package::{Package, PackageState, in_state};
use state::phase::Phase;
use state::session::Session;
use state::state::{State, in_phase};
use state::transfers::{Transfers, with_package};
use state::work::Work;

fn wrong_package(package: Package, change: u32) -> Package {
    let mut p = package;
    match change {
        1 => p.id = 0,
        2 => p.size = 0,
        3 => p.received = 90,
        4 => p.size = 4294967295,
        5 => p.blocks = 92,
        6 => p = in_state(p, PackageState::Processing),
        7 => p = in_state(p, PackageState::Processed),
        _ => {}
    }
    p
}

fn wrong_transfers(transfers: Transfers, change: u32) -> Transfers {
    let mut t = transfers;
    match change {
        8 => t.count = 17,
        9 => t.next = 0,
        10 => t.next = 2,
        11 => t.next = 4294967297,
        _ => {}
    }
    with_package(t, 0, wrong_package(t.packages[0], change))
}

fn wrong_cluster(cluster: Cluster, change: u32) -> Cluster {
    let mut c = cluster;
    match change {
        12 => c.part = 0,
        13 => c.version.third = 65536,
        14 => c.need_count = 5,
        _ => {}
    }
    c
}

fn wrong_table(table: Table, change: u32) -> Table {
    let mut t = table;
    t.clusters[0] = wrong_cluster(t.clusters[0], change);
    if change == 15 {
        t.count = 65;
    }
    t
}

fn wrong_session(session: Session, change: u32) -> Session {
    let mut e = session;
    e.beginning = wrong_table(e.beginning, change);
    match change {
        16 => e.count = 1,
        17 => e.count = 17,
        _ => {}
    }
    e
}

fn wrong_work(work: Work, change: u32) -> Work {
    let mut w = work;
    match change {
        18 => w.start = 1,
        19 => w.cancel_noted = true,
        _ => {}
    }
    w
}

fn wrong_parts(s: State, change: u32) -> State {
    State {
        transfers: wrong_transfers(s.transfers, change),
        session: wrong_session(s.session, change),
        work: wrong_work(s.work, change),
        ..s
    }
}

// Makes a state unsound, by the change that a number names.
pub fn made_unsound(s: State, change: u32) -> State {
    match change {
        20 => in_phase(s, Phase::Ready),
        21 => in_phase(s, Phase::Processing),
        22 => in_phase(s, Phase::Activating),
        23 => in_phase(s, Phase::Verifying),
        24 => in_phase(s, Phase::Activated),
        25 => in_phase(s, Phase::RolledBack),
        _ => wrong_parts(s, change),
    }
}
