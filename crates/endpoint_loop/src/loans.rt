//! What the loan of an endpoint's workers keeps.
ghost use Rattle.endpoint_loop.specs.Loans.{StandsOverLoans};

use rpc_outside::Service;
use worker_crew::Workers;

/// An endpoint stands for the same facts after its workers were lent, where these then take as many
/// jobs, were given as many, and have the same out.
pub fn stands_over_a_loan<V: Service, W: Workers>()
    ensures { StandsOverLoans V.Service W.Workers }
{}
