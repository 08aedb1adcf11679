// Why a text was not read.
use faults::Fault;
use words::Failed;

pub type Failure = Failed<Fault>;
