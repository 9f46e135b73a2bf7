// The lines that commands print.
use crate::front::Front;
use pvm_isa::Op;
use pvm_step::Exit;

/// A line that a command prints: the numbers, names and bytes that it shows.
#[derive(Drop)]
pub enum Line {
    /// How a run ended.
    Exit(Exit),
    Pc(u64),
    Gas(u64),
    Register {
        index: u8,
        value: u64,
    },
    /// The length of an output, and its first bytes.
    Output {
        length: u64,
        front: Front,
    },
    /// An instruction of a run, counted from 1, and the gas after its charge.
    Step {
        number: u64,
        pc: u64,
        op: Op,
        gas: u64,
    },
    /// How many bytes were assembled, and their digest.
    Size {
        bytes: u64,
        digest: [u8; 32],
    },
    /// The digest of a file.
    Digest([u8; 32]),
    Version(u32),
    Slot(u32),
    Entropy([u8; 32]),
    Accounts(u64),
    Account {
        id: u32,
        code: [u8; 32],
        balance: u64,
        items: u128,
        octets: u128,
        threshold: u128,
        storage: u64,
        preimages: u64,
        lookups: u64,
        gratis: u64,
        created: u32,
    },
    /// The service whose item is refined.
    Refine(u32),
    /// The service is not there.
    Absent,
    /// The service has no code.
    NoCode,
    /// The service's code is no code preimage.
    BadCode,
    Exports(u64),
    /// A group of reports, counted from 1, and the batch gas left before it.
    Group {
        number: u64,
        reports: u64,
        gas: u64,
    },
    /// A turn of a service's run: the units that it took, and the gas and place after it.
    Turn {
        service: u32,
        steps: u64,
        gas: u64,
        pc: u64,
    },
    /// The service that is run.
    Run(u32),
    Yield(Option<[u8; 32]>),
    Transfers(u64),
    LeftOut(u64),
    /// A target that is there: the sums of the amounts and of the gas, and how many transfers.
    Credit {
        target: u32,
        amount: u128,
        gas: u64,
        transfers: u64,
    },
    /// A target that is not there.
    Lost {
        target: u32,
        amount: u128,
        transfers: u64,
    },
    /// The credited target that is run.
    TransferRun(u32),
    Preimages(u64),
    /// The digest of a state's bytes.
    State([u8; 32]),
    Services(u64),
    Reports(u64),
    Groups(u64),
    Runs(u64),
    Items(u128),
    Octets(u128),
    Balance(u128),
}
