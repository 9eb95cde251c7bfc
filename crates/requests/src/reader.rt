// Stage 1: the header, the action and its arguments.
ghost use Rattle.std.specs.Prelude.{◌≡◌};
ghost use Rattle.requests.specs.Received.{answered, received_in};

use crate::types::Request;
use actions::types::{Action, Arguments};
use parties::verifier::Verifier;
use refusal::Refusal;
use wire::envelope::Envelope;

// The request in an envelope, for these two verifiers.
pub fn receive<'a, V: Verifier, P: Verifier>(bytes: &'a [u8]) -> Result<Request<'a>, Refusal>
    ensures as_defined { answered result ≡ received_in V.Verifier.width P.Verifier.width bytes.now }
{
    let envelope = Envelope::read::<V, P>(bytes)?;
    let action = Action::try_from(envelope.action_code())?;
    let arguments = Arguments::read::<V, P>(action, envelope.arguments().bytes)?;
    Ok(Request {
        kind: envelope.kind(),
        control_number: envelope.control_number(),
        key_number: envelope.key_number(),
        number: envelope.sequence_number(),
        signer: envelope.signer(),
        text: envelope.signed_text().bytes,
        tag: envelope.tag().bytes,
        arguments,
    })
}
